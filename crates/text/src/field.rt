// The fields of a line: what stands between its commas, each with its place in the line.
ghost use Rattle.std.specs.Prelude.{◌≡◌, position};
ghost use Rattle.std.specs.Iterator.{item_count};
ghost use Rattle.text.specs.Cuts.{is_comma, cuts};
ghost use Rattle.text.specs.Fields.{fields_left, HandsOut, IsField};

// What stands between two commas: its bytes, of which there are some, and their place in the line.
#[derive(Clone, Copy)]
pub struct Part<'a> {
    pub bytes: &'a [u8],
    pub at: usize,
}

// Hands out the fields of a line, one by one, in one pass over the line. A field that is left out is `None`.
#[derive(Clone, Copy)]
pub struct Fields<'a> {
    line: &'a [u8],
    // where the next field begins; `None` behind the last one
    start: Option<usize>,
}

// The place of the first comma of `rest`.
fn comma_in(rest: &[u8]) -> Option<usize>
    ensures { result ≡ position is_comma rest.now }
{
    rest.iter().position(|b| *b == b',')
}

// What the bytes between two commas say, with their place: nothing between them is a field that is left out.
fn field_of<'a>(bytes: &'a [u8], at: usize) -> Option<Part<'a>>
    ensures { IsField result bytes.now at }
{
    if bytes.is_empty() {
        None
    } else {
        Some(Part { bytes, at })
    }
}

impl<'a> Fields<'a> {
    // All fields of `line` are to come.
    pub fn of(line: &'a [u8]) -> Fields<'a>
        ensures { fields_left result ≡ cuts line.now }
    {
        Fields {
            line,
            start: Some(0),
        }
    }
}

impl<'a> Iterator for Fields<'a> {
    type Item = Option<Part<'a>>;

    ghost next_gives = { HandsOut };

    ghost remaining = { item_count fields_left };

    fn next(&mut self) -> Option<Option<Part<'a>>> {
        let at = self.start?;
        let rest = self.line.get(at..)?;
        let comma = comma_in(rest);
        self.start = comma.map(|len| at + len + 1);
        Some(field_of(&rest[..comma.unwrap_or(rest.len())], at))
    }
}
