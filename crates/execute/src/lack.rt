// What an instruction lacks: the lowest of refusals 1 to 4 that applies. Nothing is written.
ghost use Rattle.std.specs.Prelude.{◌≡◌, ◌+◌, true, false, length, ◌==◌, nat_lt};
ghost use Rattle.std.specs.Bool.{beq};
ghost use Rattle.basis.specs.Bit.{one, bit};
ghost use Rattle.instruction.specs.Decode.{decode_of};
ghost use Rattle.memory.specs.Memory.{has_of};
ghost use Rattle.cores.specs.State.{reg, word};
ghost use Rattle.cores.specs.Flow.{two_at, data_bit_is};
ghost use Rattle.cores.specs.Transfer.{reach_of};
ghost use Rattle.execute.specs.Execute.{behind};
ghost use Rattle.execute.specs.Needs.{
  lack_number,
  said_lack,
  refusal,
  byte,
  program_byte,
  call_needs,
  second_needs,
  push_needs,
  pop_needs,
  at_pointer,
  skip_needs,
  needs,
};

use cores::{Core, pointer};
use instruction::Instruction::{self, *};

// 01's refusals 1 to 4.
#[derive(Clone, Copy, Debug, PartialEq, Eq)]
pub enum Lack {
    Program = 1, // a word or an LPM byte isn't wholly in program
    Room = 2, // PC would pass 65,535
    Stack = 3, // SP would leave 0 to 65,535
    Data = 4, // a data byte isn't in data
}

impl From<Lack> for u8 {
    ghost from_gives = { λ lack n. n ≡ lack_number lack };

    fn from(lack: Lack) -> u8 {
        lack as u8
    }
}

fn lowest(program: bool, room: bool, stack: bool, bytes: bool) -> Result<(), Lack>
    ensures { said_lack result ≡ refusal (record { program = program; room = room; stack = stack; bytes = bytes }) }
{
    if !program {
        return Err(Lack::Program);
    }
    if !room {
        return Err(Lack::Room);
    }
    if !stack {
        return Err(Lack::Stack);
    }
    if bytes { Ok(()) } else { Err(Lack::Data) }
}

// A byte of data: CBI, SBI.
fn byte_refusal(A: u8, data: &[u8]) -> Result<(), Lack>
    ensures { said_lack result ≡ refusal (byte (has_of «data».now A)) }
{
    lowest(true, true, true, memory::has(data, A as usize))
}

// An address that SREG and SP have a part in: IN, OUT, PUSH, POP.
fn space_refusal(address: u16, data: &[u8]) -> Result<(), Lack>
    ensures { said_lack result ≡ refusal (byte (reach_of address (length «data».now))) }
{
    lowest(
        true,
        true,
        true,
        cores::in_data_space(address as usize, data),
    )
}

// The same by a pointer: LD and ST.
fn pointer_refusal(core: Core, pointer: u8, q: u8, dec: bool, data: &[u8]) -> Result<(), Lack>
    ensures { said_lack result ≡ refusal (at_pointer core pointer q dec «data».now) }
{
    let address = core.pointed(pointer, dec) as usize + q as usize;
    lowest(true, true, true, cores::in_data_space(address, data))
}

// The same by the second word, which PC has to pass: LDS, STS.
fn second_refusal(core: Core, address: u16, data: &[u8]) -> Result<(), Lack>
    ensures { said_lack result ≡ refusal (second_needs core address «data».now) }
{
    lowest(
        true,
        core.pc < 65535,
        true,
        cores::in_data_space(address as usize, data),
    )
}

// The program's byte at Z: LPM.
fn lpm_refusal(core: Core, program: &[u8]) -> Result<(), Lack>
    ensures { said_lack result ≡ refusal (program_byte (has_of program.now (word core 30))) }
{
    let address = core.get_register_word(pointer::Z);
    lowest(memory::has(program, address as usize), true, true, true)
}

// A word pushed: entry, RCALL, ICALL.
pub fn push_refusal(core: Core, data: &[u8]) -> Result<(), Lack>
    ensures { said_lack result ≡ refusal (push_needs core «data».now) }
{
    lowest(
        true,
        true,
        core.sp >= 2,
        memory::has(data, core.sp as usize),
    )
}

// A word pushed that is PC behind the second word.
fn call_refusal(core: Core, data: &[u8]) -> Result<(), Lack>
    ensures { said_lack result ≡ refusal (call_needs core «data».now) }
{
    lowest(
        true,
        core.pc < 65535,
        core.sp >= 2,
        memory::has(data, core.sp as usize),
    )
}

// A word popped: RET, RETI.
fn pop_refusal(core: Core, data: &[u8]) -> Result<(), Lack>
    ensures { said_lack result ≡ refusal (pop_needs core «data».now) }
{
    lowest(
        true,
        true,
        core.sp <= 65533,
        memory::has(data, core.sp as usize + 2),
    )
}

// PC stays below 65,536 behind the word to be skipped, whose length is asked for only where it decides.
fn skip_has_room(core: Core, program: &[u8]) -> bool
    ensures { result ≡ nat_lt (core.pc + one (two_at decode_of core program.now)) 65535 }
{
    let pc = core.pc as u32;
    if pc < 65534 {
        return true;
    }
    let opcode = memory::get_progmem(program, pc);
    let prefetch = memory::get_progmem(program, pc + 1);
    let two = Instruction::decode(opcode, prefetch).two_words();
    pc + (two as u32) < 65535
}

// The word to be skipped, where the skip is taken; `there`: its own data byte.
fn skip_refusal(core: Core, taken: bool, program: &[u8], there: bool) -> Result<(), Lack>
    ensures { said_lack result ≡ refusal (skip_needs decode_of core taken program.now there) }
{
    if taken {
        let room = skip_has_room(core, program);
        lowest(memory::has_word(program, core.pc as u32), room, true, there)
    } else {
        lowest(true, true, true, there)
    }
}

fn cpse_refusal(core: Core, d: u8, r: u8, program: &[u8]) -> Result<(), Lack>
    ensures { said_lack result ≡ refusal (skip_needs decode_of core (reg core d == reg core r) program.now true) }
{
    skip_refusal(
        core,
        core.get_register(d) == core.get_register(r),
        program,
        true,
    )
}

fn sbix_refusal(
    core: Core,
    A: u8,
    b: u8,
    set: bool,
    program: &[u8],
    data: &[u8],
) -> Result<(), Lack>
    ensures { said_lack result ≡ refusal (skip_needs decode_of core (data_bit_is «data».now A b set) program.now (has_of «data».now A)) }
{
    let there = memory::has(data, A as usize);
    let bitval = basis::bit(memory::read(data, A as usize), b);
    skip_refusal(core, there & (bitval == set), program, there)
}

fn sbrx_refusal(core: Core, r: u8, b: u8, set: bool, program: &[u8]) -> Result<(), Lack>
    ensures { said_lack result ≡ refusal (skip_needs decode_of core (beq (bit (reg core r) b) set) program.now true) }
{
    let bitval = basis::bit(core.get_register(r), b);
    skip_refusal(core, bitval == set, program, true)
}

#[tactic(auto, unfolding(crate::specs::Execute::behind, cores::specs::State::with_pc, cores::specs::State::with_inhibit, cores::specs::Transfer::pointed_of))]
pub fn refusal(core: Core, op: Instruction, program: &[u8], data: &[u8]) -> Result<(), Lack>
    ensures { said_lack result ≡ refusal (needs decode_of (behind core) op program.now «data».now) }
{
    match op {
        CALL { .. } => call_refusal(crate::behind(core), data),
        CBI { A, .. } | SBI { A, .. } => byte_refusal(A, data),
        CPSE { d, r } => cpse_refusal(crate::behind(core), d, r, program),
        ICALL | RCALL { .. } => push_refusal(core, data),
        IN { A, .. } | OUT { A, .. } => space_refusal(A as u16, data),
        LDX { .. } | LDXinc { .. } | STX { .. } | STXinc { .. } => pointer_refusal(
            core,
            pointer::X,
            0,
            false,
            data,
        ),
        LDXdec { .. } | STXdec { .. } => pointer_refusal(core, pointer::X, 0, true, data),
        LDYinc { .. } | STYinc { .. } => pointer_refusal(core, pointer::Y, 0, false, data),
        LDYdec { .. } | STYdec { .. } => pointer_refusal(core, pointer::Y, 0, true, data),
        LDZinc { .. } | STZinc { .. } => pointer_refusal(core, pointer::Z, 0, false, data),
        LDZdec { .. } | STZdec { .. } => pointer_refusal(core, pointer::Z, 0, true, data),
        LDDY { q, .. } | STDY { q, .. } => pointer_refusal(core, pointer::Y, q, false, data),
        LDDZ { q, .. } | STDZ { q, .. } => pointer_refusal(core, pointer::Z, q, false, data),
        LDS { k, .. } | STS { k, .. } => second_refusal(crate::behind(core), k, data),
        LPM | LPMZ { .. } | LPMZinc { .. } => lpm_refusal(core, program),
        POP { .. } => space_refusal(core.sp.wrapping_add(1), data),
        PUSH { .. } => space_refusal(core.sp, data),
        RET | RETI => pop_refusal(core, data),
        SBIC { A, b } => sbix_refusal(crate::behind(core), A, b, false, program, data),
        SBIS { A, b } => sbix_refusal(crate::behind(core), A, b, true, program, data),
        SBRC { r, b } => sbrx_refusal(crate::behind(core), r, b, false, program),
        SBRS { r, b } => sbrx_refusal(crate::behind(core), r, b, true, program),
        _ => Ok(()),
    }
}
