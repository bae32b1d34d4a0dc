// Numbers of 16 bits in byte slices, low byte first: one number at a place, and a whole area of bytes read into
// an area of numbers and written back. The laws that join the two directions are in proofs/Areas.
#![tactic(auto)]

ghost use Rattle.std.specs.Prelude.{◌≡◌, ◌+◌, ◌<◌, length};
ghost use Rattle.numbers.specs.Numbers.{number_at, numbers_of, over, over_bytes};

// The number whose low byte is at place `at`.
pub fn number_at(bytes: &[u8], at: usize) -> u16
    requires { at + 1 < length bytes.now }
    ensures { result ≡ number_at bytes.now at }
{
    u16::from_le_bytes([bytes[at], bytes[at + 1]])
}

// The numbers of `bytes` into `area`, as many as both hold; the rest of the area is unchanged.
pub fn read_area(bytes: &[u8], area: &mut [u16])
    ensures { area.new ≡ over (numbers_of bytes.now) area.old }
{
    for i in 0..area.len().min(bytes.len() / 2) {
        area[i] = number_at(bytes, 2 * i);
    }
}

// The numbers of `area` into `bytes`, as many as both hold; the rest of the bytes, an odd last one included, is
// unchanged.
pub fn write_area(area: &[u16], bytes: &mut [u8])
    ensures { bytes.new ≡ over_bytes area.now bytes.old }
{
    for i in 0..(bytes.len() / 2).min(area.len()) {
        let [low, high] = area[i].to_le_bytes();
        bytes[2 * i] = low;
        bytes[2 * i + 1] = high;
    }
}
