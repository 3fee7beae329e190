// FLOW CONTROL INSTRUCTIONS, in the order of cores.rs. PC is behind the opcode already. `flow` is `lent`'s, over the core's registers.
ghost use Rattle.std.specs.Prelude.{◌≡◌};
ghost use Rattle.instruction.specs.Decode.{decode_of};
ghost use Rattle.cores.specs.State.{reg, Leaves};
ghost use Rattle.cores.specs.Flow.{
  brbx_of,
  word_pushed,
  called,
  call_of,
  cp_of,
  cpc_of,
  skipped,
  two_at,
  cpse_of,
  icall_of,
  jumped,
  over_second,
  ijmp_of,
  jmp_of,
  rcall_of,
  ret_of,
  reti_of,
  rjmp_of,
  sbix_of,
  sbrx_of,
};

use crate::Core;
use crate::lent::flow;
use instruction::Instruction;

impl Core {
    #[tactic(auto, unfolding(crate::specs::Flow::brbx_of, crate::specs::State::with_pc, crate::specs::State::with_busy))]
    pub fn brbx(mut self, s: u8, k: u8, set: bool) -> Core
        ensures { result ≡ brbx_of self s k set }
    {
        if self.get_sreg_bit(s) == set {
            self.pc = self.pc.wrapping_add(alu::signed(k));
            self.busy = 1;
        }
        self
    }

    // The low byte of a word at SP and its high byte below, in the data bytes themselves.
    pub fn push_word(mut self, value: u16, data: &mut [u8]) -> Core
        ensures { Leaves (word_pushed self value «data».old) result «data».new }
    {
        let [low, high] = value.to_le_bytes();
        memory::write(data, self.sp as usize, low);
        memory::write(data, self.sp.wrapping_sub(1) as usize, high);
        self.sp = self.sp.wrapping_sub(2);
        self
    }

    // PC past a second word.
    pub fn over_second(mut self) -> Core
        ensures { result ≡ over_second self }
    {
        self.pc = self.pc.wrapping_add(1);
        self
    }

    // A return address pushed, and a jump.
    fn subroutine(mut self, back: u16, target: u16, busy: u8, data: &mut [u8]) -> Core
        ensures { Leaves (called self back target busy «data».old) result «data».new }
    {
        self.busy = busy;
        let mut k = self.push_word(back, data);
        k.pc = target;
        k
    }

    pub fn call(self, k: u32, data: &mut [u8]) -> Core
        ensures { Leaves (call_of self k «data».old) result «data».new }
    {
        // PC + 1 because we already incremented the PC
        let back = self.pc.wrapping_add(1);
        self.subroutine(back, (k % 65536) as u16, 2, data)
    }

    pub fn cp(self, d: u8, r: u8) -> Core
        ensures { result ≡ cp_of self d (reg self r) }
    {
        self.cpi(d, self.get_register(r))
    }

    pub fn cpc(self, d: u8, r: u8) -> Core
        ensures { result ≡ cpc_of self d (reg self r) }
    {
        let Rr = self.get_register(r);
        let Core { regs, sreg, .. } = self;
        let sreg = flow::cpc(&regs, d, Rr, sreg);
        Core { sreg, ..self }
    }

    pub fn cpi(self, d: u8, K: u8) -> Core
        ensures { result ≡ cp_of self d K }
    {
        let Core { regs, sreg, .. } = self;
        let sreg = flow::cp(&regs, d, K, sreg);
        Core { sreg, ..self }
    }

    // Over the instruction at PC, of one word or of two.
    #[tactic(auto, unfolding(crate::specs::Flow::skipped, crate::specs::State::with_pc, crate::specs::State::with_busy))]
    fn skip(mut self, taken: bool, program: &[u8]) -> Core
        ensures { result ≡ skipped self taken (two_at decode_of self program.now) }
    {
        if taken {
            let opcode = memory::get_progmem(program, self.pc as u32);
            let prefetch = memory::get_progmem(program, self.pc as u32 + 1);
            let words = 1 + Instruction::decode(opcode, prefetch).two_words() as u8;
            self.pc = self.pc.wrapping_add(words as u16);
            self.busy = words;
        }
        self
    }

    pub fn cpse(self, d: u8, r: u8, program: &[u8]) -> Core
        ensures { result ≡ cpse_of decode_of self d r program.now }
    {
        let Rd = self.get_register(d);
        let Rr = self.get_register(r);
        self.skip(Rd == Rr, program)
    }

    pub fn icall(self, data: &mut [u8]) -> Core
        ensures { Leaves (icall_of self «data».old) result «data».new }
    {
        // PC + 0 because we already incremented the PC
        let target = self.get_register_word(30);
        self.subroutine(self.pc, target, 1, data)
    }

    fn jump(mut self, target: u16, busy: u8) -> Core
        ensures { result ≡ jumped self target busy }
    {
        self.busy = busy;
        self.pc = target;
        self
    }

    pub fn ijmp(self) -> Core
        ensures { result ≡ ijmp_of self }
    {
        self.jump(self.get_register_word(30), 1)
    }

    pub fn jmp(self, k: u32) -> Core
        ensures { result ≡ jmp_of self k }
    {
        self.jump((k % 65536) as u16, 2)
    }

    pub fn rcall(self, k: u16, data: &mut [u8]) -> Core
        ensures { Leaves (rcall_of self k «data».old) result «data».new }
    {
        // PC + 0 because we already incremented the PC
        let target = self.pc.wrapping_add(k);
        self.subroutine(self.pc, target, 1, data)
    }

    pub fn ret(mut self, data: &[u8]) -> Core
        ensures { result ≡ ret_of self «data».now }
    {
        self.busy = 3; // 16-bit PC, not AVRrc
        let bh = memory::read(data, self.sp.wrapping_add(1) as usize);
        self.sp = self.sp.wrapping_add(2);
        let bl = memory::read(data, self.sp as usize);
        self.pc = u16::from_le_bytes([bl, bh]);
        self
    }

    #[tactic(auto, unfolding(crate::specs::State::with_inhibit, crate::specs::State::with_service, crate::specs::State::with_sp, crate::specs::State::with_pc, crate::specs::State::with_busy))]
    pub fn reti(self, data: &[u8]) -> Core
        ensures { result ≡ reti_of self «data».now }
    {
        let mut k = self.ret(data);
        // Ack interrupt
        k.in_service = false;
        // I bit in SREG not set for AVRxt
        k.inhibit = true; // prevent immediate servicing of another interrupt
        k
    }

    pub fn rjmp(self, k: u16) -> Core
        ensures { result ≡ rjmp_of self k }
    {
        self.jump(self.pc.wrapping_add(k), 1)
    }

    // A byte that isn't in data counts as not so.
    pub fn sbix(self, A: u8, b: u8, set: bool, program: &[u8], data: &[u8]) -> Core
        ensures { result ≡ sbix_of decode_of self A b set program.now «data».now }
    {
        let there = memory::has(data, A as usize);
        let bitval = basis::bit(memory::read(data, A as usize), b);
        self.skip(there & (bitval == set), program)
    }

    pub fn sbrx(self, r: u8, b: u8, set: bool, program: &[u8]) -> Core
        ensures { result ≡ sbrx_of decode_of self r b set program.now }
    {
        let bitval = basis::bit(self.get_register(r), b);
        self.skip(bitval == set, program)
    }
}
