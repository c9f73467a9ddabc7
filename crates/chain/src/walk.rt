// A walk along a chain, from its oldest block to its newest.
ghost use Rattle.std.specs.Prelude.{◌≡◌, true};
ghost use Rattle.chain.specs.View.{blocks_of};
ghost use Rattle.chain.specs.Walking.{stands};

use crate::chains::Chains;
use crate::link::Index;

// The blocks of a chain that are still to come.
#[derive(Drop)]
pub struct Walk<'c, 'a> {
    pub(crate) chains: &'c Chains<'a>,
    pub(crate) at: Option<Index>,
    ghost standing: { stands (blocks_of chains.now) at ≡ true },
}

impl<'c, 'a> Iterator for Walk<'c, 'a> {
    ghost use Rattle.std.specs.Iterator.{YieldsFirstBy, item_count};
    ghost use Rattle.chain.specs.Coming.{coming};

    type Item = Index;

    ghost next_gives = { YieldsFirstBy (λ x. x.number) coming };

    ghost remaining = { item_count coming };

    fn next(&mut self) -> Option<Index> {
        let x = self.at?;
        self.at = self.chains.behind(x);
        Some(x)
    }
}
