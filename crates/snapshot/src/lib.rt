// Snapshots: a core as 38 bytes.
#![tactic(auto)]

ghost use Rattle.std.specs.Prelude.{◌≡◌, ◌+◌, ◌*◌, ◌≤◌, length};
ghost use Rattle.basis.specs.Bit.{one};
ghost use Rattle.snapshot.specs.Snapshot.{
  bytes_of,
  core_of,
  write_of,
  read_of,
  unreadable_number,
  unwritable_number,
  said_read,
  said_write,
  Writes,
};

use cores::Core;

// Why bytes are no snapshot: they are not 38; busy is above 4; a spare bit is set.
#[derive(Clone, Copy, Debug, PartialEq, Eq)]
pub enum Unreadable {
    Length,
    Busy,
    Spare,
}

// Why a core is not written: the buffer is not 38 bytes; busy is above 4.
#[derive(Clone, Copy, Debug, PartialEq, Eq)]
pub enum Unwritable {
    Length,
    Busy,
}

impl From<Unreadable> for u8 {
    ghost from_gives = { λ e n. n ≡ unreadable_number e };

    fn from(refusal: Unreadable) -> u8 {
        match refusal {
            Unreadable::Length => 7,
            Unreadable::Busy => 8,
            Unreadable::Spare => 9,
        }
    }
}

impl From<Unwritable> for u8 {
    ghost from_gives = { λ e n. n ≡ unwritable_number e };

    fn from(refusal: Unwritable) -> u8 {
        match refusal {
            Unwritable::Length => 7,
            Unwritable::Busy => 5,
        }
    }
}

// busy 3 bits, inhibit, in-service, the rule, two zero bits.
fn last_byte(busy: u8, inhibit: bool, service: bool, chip: bool) -> u8
    requires { busy ≤ 4 }
    ensures { result ≡ busy * 32 + one inhibit * 16 + one service * 8 + one chip * 4 }
{
    busy * 32 + inhibit as u8 * 16 + service as u8 * 8 + chip as u8 * 4
}

fn bytes_of(core: Core) -> [u8; 38]
    requires { core.busy ≤ 4 }
    ensures { result ≡ bytes_of core }
{
    let [pc_high, pc_low] = core.pc.to_be_bytes();
    let [sp_high, sp_low] = core.sp.to_be_bytes();
    let last = last_byte(core.busy, core.inhibit, core.in_service, core.chip);
    let mut out = [0u8; 38];
    out[..32].copy_from_slice(&core.regs);
    out[32..].copy_from_slice(&[core.sreg, pc_high, pc_low, sp_high, sp_low, last]);
    out
}

fn core_of(bytes: &[u8]) -> Core
    requires { length bytes.now ≡ 38 }
    ensures { result ≡ core_of bytes.now }
{
    let mut regs = [0u8; 32];
    regs.copy_from_slice(&bytes[..32]);
    let last = bytes[37];
    Core {
        regs,
        sreg: bytes[32],
        pc: u16::from_be_bytes([bytes[33], bytes[34]]),
        sp: u16::from_be_bytes([bytes[35], bytes[36]]),
        busy: last / 32,
        inhibit: last / 16 % 2 == 1,
        in_service: last / 8 % 2 == 1,
        chip: last / 4 % 2 == 1,
    }
}

// The core's 38 bytes into a buffer of that length.
pub fn write(core: Core, out: &mut [u8]) -> Result<(), Unwritable>
    ensures { Writes (write_of core out.old) (said_write result) out.new }
{
    if out.len() != 38 {
        return Err(Unwritable::Length);
    }
    if core.busy > 4 {
        return Err(Unwritable::Busy);
    }
    out.copy_from_slice(&bytes_of(core));
    Ok(())
}

// The core that 38 bytes say.
pub fn read(bytes: &[u8]) -> Result<Core, Unreadable>
    ensures { said_read result ≡ read_of bytes.now }
{
    if bytes.len() != 38 {
        return Err(Unreadable::Length);
    }
    if bytes[37] / 32 > 4 {
        return Err(Unreadable::Busy);
    }
    if bytes[37] % 4 != 0 {
        return Err(Unreadable::Spare);
    }
    Ok(core_of(bytes))
}
