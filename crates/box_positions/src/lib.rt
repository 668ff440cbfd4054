// The positions of a bay (02, item 9) as a table of bytes: a name looked up, saved and forgotten; and the theorems that the table
// is the positions by name.
#![tactic(auto)]

ghost use Rattle.std.specs.Prelude.{◌≡◌, ℕ, cond, ◌<◌, length, ltb};
ghost use Rattle.spec_base.specs.Limits.{max_positions};
ghost use Rattle.labels.specs.Labels.{label_set};
ghost use Rattle.spec_bay.specs.Table.{table_length, saved_labels, written, cleared, kept, save_of};
ghost use Rattle.box_positions.specs.Places.{place, place_of, place_in, Places};
ghost use Rattle.limits.specs.Rows.{call_number};

use labels::Labels;
use limits::rows::Refusal;
use limits::{MAX_POSITIONS, NAME_BYTES};
use records::STATE_LENGTH;

const KEY_BYTES: usize = NAME_BYTES + 1;

const ENTRY_LENGTH: usize = NAME_BYTES + STATE_LENGTH;

pub const TABLE_LENGTH: usize = MAX_POSITIONS * ENTRY_LENGTH;

// The mark of a used entry, behind the name.
const USED: u64 = 4294967296;

// The last entry with this key.
fn place(table: &[u8], key: u64) -> Option<usize>
    ensures { Places result (place max_positions key table.now) }
{
    for i in (0..MAX_POSITIONS).rev() {
        if numbers::get_le(table, i * ENTRY_LENGTH, KEY_BYTES) == key {
            return Some(i);
        }
    }
    None
}

// The entry of a name.
pub fn place_of(table: &[u8], name: u32) -> Option<usize>
    ensures { Places result (place_of name table.now) }
{
    place(table, name as u64 + USED)
}

// The entry of a name, or else a free one.
fn place_for(table: &[u8], known: Option<usize>) -> Option<usize>
    ensures { (n : ℕ) → Places known n → Places result (cond (ltb n max_positions) n (place max_positions 0 table.now)) }
{
    known.or_else(|| place(table, 0))
}

pub fn saved_labels(table: &[u8], i: usize) -> Labels
    requires { i < max_positions }
    ensures { label_set result ≡ saved_labels i table.now }
{
    records::labels(numbers::part(table, i * ENTRY_LENGTH + NAME_BYTES, STATE_LENGTH))
}

fn write(table: &mut [u8], i: usize, name: u32, labels: Labels)
    requires { (length table.old ≡ table_length) × (i < max_positions) }
    ensures { table.new ≡ written i name (label_set labels) table.old }
{
    let at = i * ENTRY_LENGTH;
    let from = at + NAME_BYTES;
    let end = from + STATE_LENGTH;
    numbers::put_le(table, at, NAME_BYTES, name as u64);
    records::write_state(&mut table[from..end], 1, labels);
}

pub fn save(
    table: &mut [u8],
    known: Option<usize>,
    name: u32,
    labels: Labels,
) -> Result<(), Refusal>
    requires { (length table.old ≡ table_length) × Places known (place_of name table.old) }
    ensures { kept (call_number result) table.new ≡ save_of name (label_set labels) table.old }
{
    let i = place_for(table, known).ok_or(Refusal::Positions)?;
    write(table, i, name, labels);
    Ok(())
}

// The name of an entry is forgotten; without an entry the call is turned down.
pub fn forget(table: &mut [u8], known: Option<usize>) -> Result<(), Refusal>
    requires { length table.old ≡ table_length }
    ensures { kept (call_number result) table.new
        ≡ cond (ltb (place_in known) max_positions) (kept 0 (cleared (place_in known) table.old)) (kept 15 table.old) }
{
    match known {
        Some(i) if i < MAX_POSITIONS => {
            numbers::put_le(table, i * ENTRY_LENGTH, ENTRY_LENGTH, 0);
            Ok(())
        }
        _ => Err(Refusal::Position),
    }
}
