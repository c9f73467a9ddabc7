// Why a call is not answered with a reply.
#[derive(Clone, Copy, PartialEq, Eq, Debug)]
pub enum CallError {
    // Number 1: the buffer is too short for a reply.
    ShortBuffer,
}
