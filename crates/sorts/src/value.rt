// The values that fields hold.

// A quick key: a number, or a dot where there is none.
pub type QuickKey = Option<u8>;

// A tag: a number, or NONE where there is none.
pub type Tag = Option<u16>;

#[derive(Clone, Copy, Debug, PartialEq, Eq)]
pub enum Modulation {
    Auto,
    Am,
    Fm,
    Nfm,
    Wfm,
    Fmb,
}

// What a text that is a name stands for: the starting name, or itself.
#[derive(Clone, Copy, Debug, PartialEq, Eq)]
pub enum NameText {
    Blank,
    Own,
}
