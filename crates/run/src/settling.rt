// The six bytes of a snapshot behind its registers, changed where they lie.
ghost use Rattle.std.specs.Prelude.{◌≡◌, ◌+◌, ◌-◌, ◌*◌, ◌<◌, ◌≤◌, ◌++◌, length, take, nat_lt};
ghost use Rattle.basis.specs.Pick.{pick};
ghost use Rattle.basis.specs.Bit.{one};
ghost use Rattle.run.specs.Settling.{word_at, word_put, six};

// A word, high byte first.
pub(crate) fn word_at(snapshot: &[u8], at: usize) -> u16
    requires { at + 1 < length snapshot.now }
    ensures { result ≡ word_at snapshot.now at }
{
    u16::from_be_bytes([snapshot[at], snapshot[at + 1]])
}

fn put_word(snapshot: &mut [u8], at: usize, value: u16)
    requires { at + 1 < length snapshot.old }
    ensures { snapshot.new ≡ word_put snapshot.old at value }
{
    let [high, low] = value.to_be_bytes();
    snapshot[at] = high;
    snapshot[at + 1] = low;
}

fn put_word_if(snapshot: &mut [u8], on: bool, at: usize, value: u16)
    requires { at + 1 < length snapshot.old }
    ensures { snapshot.new ≡ pick on (word_put snapshot.old at value) snapshot.old }
{
    if on {
        put_word(snapshot, at, value);
    }
}

// The last byte of a core that does not wait.
pub(crate) fn flags(inhibit: bool, in_service: bool, chip: bool) -> u8
    ensures { result ≡ one inhibit * 16 + one in_service * 8 + one chip * 4 }
{
    inhibit as u8 * 16 + in_service as u8 * 8 + chip as u8 * 4
}

// PC goes first and SP only where it is not what it was: then each pair of stores is one, which the loads of the next tick do not wait for.
fn settle(snapshot: &mut [u8], sreg: u8, pc: u16, sp: u16, before: u16, last: u8)
    requires snapshot_len { length snapshot.old ≡ 38 }
    requires before_value { before ≡ word_at snapshot.old 35 }
    ensures { snapshot.new ≡ take 32 snapshot.old ++ six sreg pc sp last }
{
    put_word(snapshot, 33, pc);
    put_word_if(snapshot, sp != before, 35, sp);
    snapshot[32] = sreg;
    snapshot[37] = last;
}

// Where a stretch ended at the tick `at`: the ticks done, at most the budget. What is above the budget are waits.
pub(crate) fn leave(
    snapshot: &mut [u8],
    sreg: u8,
    pc: u16,
    sp: u16,
    before: u16,
    rest: u8,
    at: u64,
    budget: u32,
) -> u32
    requires snapshot_len { (length snapshot.old ≡ 38) × (before ≡ word_at snapshot.old 35) }
    requires rest_bound { (rest ≤ 28) × (at ≤ budget + 4) }
    ensures snapshot_after { snapshot.new ≡ take 32 snapshot.old ++ six sreg pc sp ((at - budget) * 32 + rest) }
    ensures value { result ≡ pick (nat_lt at budget) at budget }
{
    if at >= budget as u64 {
        settle(
            snapshot,
            sreg,
            pc,
            sp,
            before,
            (at - budget as u64) as u8 * 32 + rest,
        );
        return budget;
    }
    settle(snapshot, sreg, pc, sp, before, rest);
    at as u32
}
