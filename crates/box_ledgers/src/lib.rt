// The year's ledger of a bay number (02, item 12): 32 totals in 128 lent bytes, in single precision, the litres of an instant added
// to them, and a reading of them with the ledger's total. No box is known here.
#![tactic(auto)]

ghost use Rattle.std.specs.Prelude.{◌≡◌, false, ◌+◌, ◌≤◌, ◌<◌, ◌*◌, ltb, length, get_or};
ghost use Rattle.std.proofs.lemmas.List.Edits.{sets};
ghost use Rattle.spec_base.specs.Bytes.{le_bytes};
ghost use Rattle.spec_base.specs.Limits.{litres_limit, farm_count};
ghost use Rattle.spec_bay.specs.Ledgers.{ledger_length, total_in, total_float, cleared, NoneOutside, passes, added_to, added, reading_length, exact_total, reading_of, total_read};
ghost use Rattle.spec_base.specs.WholeLitres.{Near};
ghost use Rattle.spec_sequence.specs.Amounts.{amount_bytes};

// The farms of a ledger, the bytes of their totals, and the bytes of a reading.
pub const FARMS: usize = limits::FARMS;

pub const LENGTH: usize = 128;

pub const READING_LENGTH: usize = 132;

// Four bytes, lowest first. Written out, and not a call of `numbers::put_le`, so that it is one store.
fn put_four(b: &mut [u8], at: usize, x: u32)
    requires { at + 4 ≤ length b.old }
    ensures { b.new ≡ sets b.old at (le_bytes 4 x) }
{
    b[at] = (x % 256) as u8;
    b[at + 1] = (x / 256 % 256) as u8;
    b[at + 2] = (x / 65536 % 256) as u8;
    b[at + 3] = (x / 16777216) as u8;
}

// A farm's total.
fn total(ledger: &[u8], farm: usize) -> f32
    requires { (length ledger.now ≡ ledger_length) × (farm < farm_count) }
    ensures { result ≡ total_float farm ledger.now }
{
    let bits = litres::bits(ledger, farm * 4);
    if litres::is_whole(bits) {
        f32::from_bits(bits)
    } else {
        f32::from_bits(0)
    }
}

// Whether a farm's total would pass the limit with so many litres more. The sum is exact, in whole numbers.
fn passes_at(ledger: &[u8], farm: usize, more: u32) -> bool
    requires { (length ledger.now ≡ ledger_length) × (farm < farm_count) }
    ensures { result ≡ ltb litres_limit (total_in farm ledger.now + more) }
{
    more != 0 && (limits::LITRES_LIMIT as u64) < total(ledger, farm) as u32 as u64 + more as u64
}

// Whether some farm's total would pass the limit with the litres of that farm. Only the farms of the set have any.
pub fn would_pass(ledger: &[u8], litres: &[u32; FARMS], farms: u32) -> bool
    requires ledger_len { length ledger.now ≡ ledger_length }
    requires none_outside { NoneOutside farms (λ f. get_or litres.now f 0) }
    ensures { result ≡ passes ledger.now (λ f. get_or litres.now f 0) }
{
    let mut left = farms;
    while !signals::is_empty(left) {
        let x = signals::lowest(left);
        let farm = x as usize;
        if passes_at(ledger, farm, litres[farm]) {
            return true;
        }
        left = signals::without(left, x);
    }
    false
}

// One farm's total with litres that do not pass the limit. Below it single precision adds whole numbers exactly.
fn add_to(ledger: &mut [u8], farm: usize, more: u32)
    requires { (length ledger.old ≡ ledger_length) × (farm < farm_count) × (total_in farm ledger.old + more ≤ litres_limit) }
    ensures { ledger.new ≡ added_to farm more ledger.old }
{
    if more == 0 {
        return;
    }
    let sum = total(ledger, farm) + more as f32;
    put_four(ledger, farm * 4, f32::to_bits(sum));
}

// Adds the litres of an instant to the totals, none of which passes the limit by them. Only the farms of the set have any.
pub fn add(ledger: &mut [u8], litres: &[u32; FARMS], farms: u32)
    requires ledger_len { length ledger.old ≡ ledger_length }
    requires f_value { passes ledger.old (λ f. get_or litres.now f 0) ≡ false }
    requires none_outside { NoneOutside farms (λ f. get_or litres.now f 0) }
    ensures { ledger.new ≡ added (λ f. get_or litres.now f 0) ledger.old }
{
    let mut left = farms;
    while !signals::is_empty(left) {
        let x = signals::lowest(left);
        let farm = x as usize;
        add_to(ledger, farm, litres[farm]);
        left = signals::without(left, x);
    }
}

// Clears every total, for the new year.
pub fn clear(ledger: &mut [u8])
    requires { length ledger.old ≡ ledger_length }
    ensures { ledger.new ≡ cleared }
{
    for farm in 0..FARMS {
        numbers::put_le(ledger, farm * 4, 4, 0);
    }
}

// A farm's total, as a whole number up to the limit; and the same as a number.
fn show(ledger: &[u8], farm: usize, reading: &mut [u8]) -> f32
    requires { (length ledger.now ≡ ledger_length) × (length reading.old ≡ reading_length) × (farm < farm_count) }
    ensures value { result ≡ total_float farm ledger.now }
    ensures reading_after { reading.new ≡ sets reading.old (farm * 4) (amount_bytes (total_in farm ledger.now)) }
{
    let t = total(ledger, farm);
    put_four(reading, farm * 4, f32::to_bits(t));
    t
}

// The 32 totals, then the ledger's total, added over the farms in their order.
pub fn read(ledger: &[u8], reading: &mut [u8])
    requires { (length ledger.now ≡ ledger_length) × (length reading.old ≡ reading_length) }
    ensures reading_after { reading.new ≡ reading_of ledger.now }
    ensures near { Near 496 (total_read reading.new) (exact_total farm_count ledger.now) }
{
    let mut t = show(ledger, 0, reading);
    for farm in 1..FARMS {
        t += show(ledger, farm, reading);
    }
    put_four(reading, LENGTH, f32::to_bits(t));
}
