// How many blocks there are, and how many are free.
ghost use Rattle.std.specs.Prelude.{◌≡◌, length};
ghost use Rattle.chain.specs.View.{free_of};

use crate::chains::Chains;

impl<'a> Chains<'a> {
    // How many blocks there are.
    pub fn count(&self) -> u32
        ensures { result ≡ self.now.tables.count }
    {
        self.tables.count
    }

    // How many blocks are free.
    pub fn spare(&self) -> u32
        ensures { result ≡ length (free_of self.now) }
    {
        self.tables.spare
    }
}
