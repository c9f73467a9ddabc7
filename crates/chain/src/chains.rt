// Chains of blocks and the free stack over a lent table of links.
ghost use Rattle.chain.specs.Tables.{Sound};

use crate::tables::Tables;

// Tables in which each block is free or in one chain.
#[derive(Drop)]
pub struct Chains<'a> {
    pub(crate) tables: Tables<'a>,
    ghost sound: { Sound tables },
}
