// Programming mode. While it is off, only PRG and EPG are taken.
#[derive(Clone, Copy, PartialEq, Eq)]
pub enum Mode {
    Off,
    On,
}
