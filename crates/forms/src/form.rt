// The forms: which case of `Instruction` a word is, as the case's place in the enum. LSL, which no word is, has none.
// Numbers and not an enum: `form_of` hands back whatever byte a lent table holds, and `instruction_of`, `effect` and `change` take any byte.
pub const ADC: u8 = 0;

pub const ADD: u8 = 1;

pub const ADIW: u8 = 2;

pub const AND: u8 = 3;

pub const ANDI: u8 = 4;

pub const ASR: u8 = 5;

pub const BCLR: u8 = 6;

pub const BLD: u8 = 7;

pub const BRBC: u8 = 8;

pub const BRBS: u8 = 9;

pub const BREAK: u8 = 10;

pub const BSET: u8 = 11;

pub const BST: u8 = 12;

pub const CALL: u8 = 13;

pub const CBI: u8 = 14;

pub const COM: u8 = 15;

pub const CP: u8 = 16;

pub const CPC: u8 = 17;

pub const CPI: u8 = 18;

pub const CPSE: u8 = 19;

pub const DEC: u8 = 20;

pub const EOR: u8 = 21;

pub const FMUL: u8 = 22;

pub const FMULS: u8 = 23;

pub const FMULSU: u8 = 24;

pub const ICALL: u8 = 25;

pub const IJMP: u8 = 26;

pub const IN: u8 = 27;

pub const INC: u8 = 28;

pub const JMP: u8 = 29;

pub const LDX: u8 = 30;

pub const LDXinc: u8 = 31;

pub const LDXdec: u8 = 32;

pub const LDYinc: u8 = 33;

pub const LDYdec: u8 = 34;

pub const LDZinc: u8 = 35;

pub const LDZdec: u8 = 36;

pub const LDDY: u8 = 37;

pub const LDDZ: u8 = 38;

pub const LDI: u8 = 39;

pub const LDS: u8 = 40;

pub const LPM: u8 = 41;

pub const LPMZ: u8 = 42;

pub const LPMZinc: u8 = 43;

pub const LSR: u8 = 45;

pub const MOV: u8 = 46;

pub const MOVW: u8 = 47;

pub const MUL: u8 = 48;

pub const MULS: u8 = 49;

pub const MULSU: u8 = 50;

pub const NEG: u8 = 51;

pub const NOP: u8 = 52;

pub const OR: u8 = 53;

pub const ORI: u8 = 54;

pub const OUT: u8 = 55;

pub const POP: u8 = 56;

pub const PUSH: u8 = 57;

pub const RCALL: u8 = 58;

pub const RET: u8 = 59;

pub const RETI: u8 = 60;

pub const RJMP: u8 = 61;

pub const ROR: u8 = 62;

pub const SBC: u8 = 63;

pub const SBCI: u8 = 64;

pub const SBI: u8 = 65;

pub const SBIC: u8 = 66;

pub const SBIS: u8 = 67;

pub const SBIW: u8 = 68;

pub const SBRC: u8 = 69;

pub const SBRS: u8 = 70;

pub const SLEEP: u8 = 71;

pub const STX: u8 = 72;

pub const STXdec: u8 = 73;

pub const STXinc: u8 = 74;

pub const STYdec: u8 = 75;

pub const STYinc: u8 = 76;

pub const STZdec: u8 = 77;

pub const STZinc: u8 = 78;

pub const STDY: u8 = 79;

pub const STDZ: u8 = 80;

pub const STS: u8 = 81;

pub const SUB: u8 = 82;

pub const SUBI: u8 = 83;

pub const SWAP: u8 = 84;

pub const WDR: u8 = 85;

pub const UNDEF: u8 = 86;

// No form, but a mark in a table: the bits 7 to 4 decide.
pub const LOOK_FURTHER: u8 = 255;
