// Chains over lent links.
ghost use Rattle.std.specs.Prelude.{◌≡◌, min, length, drop};
ghost use Rattle.chain.specs.Blocks.{opened};
ghost use Rattle.chain.specs.Tables.{Spares};
ghost use Rattle.chain.specs.View.{blocks_of};

use crate::chains::Chains;
use crate::link::{Ends, Link};
use crate::tables::Tables;

impl<'a> Chains<'a> {
    // Chains over the lent links, at most `most`, with every block free.
    pub fn open(links: &'a mut [Link], most: u32) -> Chains<'a>
        ensures blocks { blocks_of result ≡ opened result.tables.count }
        ensures count { result.tables.count ≡ min (length links.old) most }
        ensures later { drop result.tables.count result.tables.links.now ≡ drop result.tables.count links.old }
        ensures len { length result.tables.links.now ≡ length links.old }
    {
        let count = links.len().min(most as usize) as u32;
        let mut tables = Tables {
            links,
            root: Ends::NONE,
            free: 0,
            spare: 0,
            count,
        };
        tables.reset();
        Chains { tables }
    }

    // Makes every block free again, as after opening.
    pub fn reopen(&mut self)
        ensures blocks { blocks_of self.new ≡ opened self.old.tables.count }
        ensures spared { Spares self.old.tables self.new.tables }
    {
        self.tables.reset();
    }
}
