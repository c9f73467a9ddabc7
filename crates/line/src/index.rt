// Indexes as texts.
ghost use Rattle.std.specs.Prelude.{◌≡◌, ℕ};
ghost use Rattle.std.specs.Option.{option_map};
ghost use Rattle.chain.specs.declared.link.Index.{Index};
ghost use Rattle.ledger.specs.Records.{index_in};

use chain::Index;
use text::number::read_number;

// The block that a text names, of those from 1 to `count`.
pub fn read_index(text: &[u8], count: u32) -> Option<Index>
    ensures value { option_map (λ (i : Index). i.number) result ≡ index_in count text.now }
{
    read_number(text)
        .filter(|n| *n <= count)
        .and_then(Index::new)
}
