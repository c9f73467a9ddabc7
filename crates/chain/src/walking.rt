// Where a walk begins.
ghost use Rattle.std.specs.Prelude.{◌≡◌, ◌^◌, ◌<◌, length};
ghost use Rattle.chain.specs.Entry.{number};
ghost use Rattle.chain.specs.Blocks.{Living};
ghost use Rattle.chain.specs.View.{blocks_of, chain_of};
ghost use Rattle.chain.specs.Coming.{coming};

use crate::chains::Chains;
use crate::link::Chain;
use crate::walk::Walk;

impl<'a> Chains<'a> {
    // The blocks of a chain from the oldest on; the chain is the root's, or its owner is in use.
    pub fn walk(&self, chain: Chain) -> Walk<'_, 'a>
        requires { Living (blocks_of self.now) chain }
        ensures blocks { coming result ≡ chain_of self.now (number chain) }
        ensures few { length (coming result) < 2 ^ 32 }
    {
        Walk {
            chains: self,
            at: self.head(chain),
        }
    }
}
