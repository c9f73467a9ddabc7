// What a session keeps, beside the memory and not in it: most functions are lent the memory alone.
use ledger::mode::Mode;

#[derive(Clone, Copy)]
pub struct Session {
    pub mode: Mode,
}
