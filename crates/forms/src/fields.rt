// The fields of a word, by the letter that the patterns of `decode` have for them and how many bits they take.
ghost use Rattle.std.specs.Prelude.{◌≡◌, ◌+◌, ◌*◌, ◌/◌, ◌%◌, ◌<◌, ◌≤◌, ◌^◌};
ghost use Rattle.instruction.specs.Decode.{d5, d4, d3, d2, r5, r4, r3, K8, K6, q6, A6, A5, b3, s3, k22, k12, k7};

// N bits of a word, from bit AT up.
fn bits<const AT: u32, const N: u32>(opcode: u16) -> u16
    requires at { AT < 16 }
    requires n { N ≤ 8 }
    ensures { result ≡ opcode / 2 ^ AT % 2 ^ N }
{
    (opcode >> AT) % (1 << N)
}

// A register, 0 to 31: the destination, of stores the source.
pub fn d5(opcode: u16) -> u8
    ensures { result ≡ d5 opcode }
{
    bits::<4, 5>(opcode) as u8
}

// A source register, 0 to 31.
pub fn r5(opcode: u16) -> u8
    ensures { result ≡ r5 opcode }
{
    (bits::<9, 1>(opcode) * 16 + bits::<0, 4>(opcode)) as u8
}

// Registers 16 to 31.
pub fn d4(opcode: u16) -> u8
    ensures { result ≡ d4 opcode + 16 }
{
    (bits::<4, 4>(opcode) + 16) as u8
}

pub fn r4(opcode: u16) -> u8
    ensures { result ≡ r4 opcode + 16 }
{
    (bits::<0, 4>(opcode) + 16) as u8
}

// Registers 16 to 23.
pub fn d3(opcode: u16) -> u8
    ensures { result ≡ d3 opcode + 16 }
{
    (bits::<4, 3>(opcode) + 16) as u8
}

pub fn r3(opcode: u16) -> u8
    ensures { result ≡ r3 opcode + 16 }
{
    (bits::<0, 3>(opcode) + 16) as u8
}

// The lower register of a pair, R0 to R30.
pub fn d4_pair(opcode: u16) -> u8
    ensures { result ≡ d4 opcode * 2 }
{
    (bits::<4, 4>(opcode) * 2) as u8
}

pub fn r4_pair(opcode: u16) -> u8
    ensures { result ≡ r4 opcode * 2 }
{
    (bits::<0, 4>(opcode) * 2) as u8
}

// The lower register of a pair, R24 to R30.
pub fn d2(opcode: u16) -> u8
    ensures { result ≡ d2 opcode * 2 + 24 }
{
    (bits::<4, 2>(opcode) * 2 + 24) as u8
}

// Constants.
pub fn K8(opcode: u16) -> u8
    ensures { result ≡ K8 opcode }
{
    (bits::<8, 4>(opcode) * 16 + bits::<0, 4>(opcode)) as u8
}

pub fn K6(opcode: u16) -> u8
    ensures { result ≡ K6 opcode }
{
    (bits::<6, 2>(opcode) * 16 + bits::<0, 4>(opcode)) as u8
}

// A displacement.
pub fn q6(opcode: u16) -> u8
    ensures { result ≡ q6 opcode }
{
    (bits::<13, 1>(opcode) * 32 + bits::<10, 2>(opcode) * 8 + bits::<0, 3>(opcode)) as u8
}

// I/O addresses.
pub fn A6(opcode: u16) -> u8
    ensures { result ≡ A6 opcode }
{
    (bits::<9, 2>(opcode) * 16 + bits::<0, 4>(opcode)) as u8
}

pub fn A5(opcode: u16) -> u8
    ensures { result ≡ A5 opcode }
{
    bits::<3, 5>(opcode) as u8
}

// Bit positions: the lowest three bits, and those of BSET and BCLR.
pub fn b3(opcode: u16) -> u8
    ensures { result ≡ b3 opcode }
{
    bits::<0, 3>(opcode) as u8
}

pub fn s3(opcode: u16) -> u8
    ensures { result ≡ s3 opcode }
{
    bits::<4, 3>(opcode) as u8
}

// Offsets, with their sign repeated.
pub fn k7(opcode: u16) -> u8
    ensures { result ≡ k7 opcode }
{
    (bits::<3, 6>(opcode) + bits::<9, 1>(opcode) * 192) as u8
}

pub fn k12(opcode: u16) -> u16
    ensures { result ≡ k12 opcode }
{
    opcode % 2048 + opcode / 2048 % 2 * 63488
}

// The target of CALL and JMP: six bits of the word, then the second word.
pub fn k22(opcode: u16, prefetch: u16) -> u32
    ensures { result ≡ k22 opcode prefetch }
{
    ((opcode / 16 % 32 * 2 + opcode % 2) as u32) * 65536 + (prefetch as u32)
}
