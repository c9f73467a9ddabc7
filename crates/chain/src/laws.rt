// Laws of the model that later proofs may cite; nothing is run.
ghost use Rattle.chain.specs.Laws.{Creating, Deleting, Visiting, Covering, Owning, Emptying, Pinning};

// Creating appends the front free block to one chain and leaves the others.
pub fn creating_appends()
    ensures { Creating }
{}

// Deleting a block without members takes it out of its chain and puts it in front of the free blocks.
pub fn deleting_takes_one()
    ensures { Deleting }
{}

// From the head, next visits the chain and ends; from the tail, previous visits the reverse.
pub fn walking_visits()
    ensures { Visiting }
{}

// Free and used blocks make up 1 to the count, each once.
pub fn blocks_are_covered()
    ensures { Covering }
{}

// A free block has no members: an owner of members is in use.
pub fn owners_are_used()
    ensures { Owning }
{}

// A block whose members have no members goes after them: the members of its first chain from head to tail, those of its second, then itself.
pub fn members_go_first()
    ensures { Emptying }
{}

// Every link, the ends of the root's chain and the free stack are those that the model gives.
pub fn tables_are_pinned()
    ensures { Pinning }
{}
