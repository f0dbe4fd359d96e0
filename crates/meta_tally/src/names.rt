// Names in common.
ghost use Rattle.std.specs.Prelude.{◌≡◌, ◌==◌, ◌+◌, ◌<◌, ◌≤◌, length, slice_index, slice_set};
ghost use Rattle.meta_tally.specs.Names.{name_number as the_name_number, name_mark as the_name_mark};

/// How many numbers there are for names.
pub(crate) const NUMBERS: usize = 0x80000;

// The number of a name.
fn name_number(name: &[u8]) -> u32
    ensures value { result ≡ the_name_number name.now }
    ensures few { result < 0x80000 }
{
    let mut hash = 0u32;
    for &byte in name {
        hash = (31 * hash + u32::from(byte)) % 0x80000;
    }
    hash
}

/// The mark of a header page with that name: at least 1.
#[tactic(auto, unfolding(crate::specs::Names::name_mark))]
pub(crate) fn name_mark(name: &[u8]) -> u8
    ensures value { result ≡ the_name_mark name.now }
    ensures some { 1 ≤ result }
{
    (1 + name_number(name) % 255) as u8
}

/// Notes a name: whether none of its number was noted before.
pub(crate) fn note_name(names: &mut [u8], name: &[u8]) -> bool
    requires { length names.old ≡ 0x80000 }
    ensures first { result ≡ (slice_index names.old (the_name_number name.now) == 0) }
    ensures noted { names.new ≡ slice_set names.old (the_name_number name.now) 1 }
    ensures few { the_name_number name.now < 0x80000 }
{
    let number = name_number(name) as usize;
    let first = names[number] == 0;
    names[number] = 1;
    first
}
