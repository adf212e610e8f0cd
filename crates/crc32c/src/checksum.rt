//! The checksum of octets, eight octets at a time by tables.

ghost use Rattle.std.specs.Prelude.{◌≡◌, ◌<◌, ◌*◌, ◌/◌, ◌%◌, ℕ, bit_xor, slice_index};
ghost use Rattle.crc32c.specs.Checksum.{crc32c, register_after, register_after_bit};
ghost use Rattle.crc32c.specs.Checksum.{register_after_bits};

/// The tables of CRC-32C (RFC 9260, appendix A), with which checksums are computed: the registers
/// after each octet, and after each octet with one to seven octets of zeros after it.
#[derive(Drop)]
pub struct Crc32c {
    octet: [u32; 256],
    octet_and_one: [u32; 256],
    octet_and_two: [u32; 256],
    octet_and_three: [u32; 256],
    octet_and_four: [u32; 256],
    octet_and_five: [u32; 256],
    octet_and_six: [u32; 256],
    octet_and_seven: [u32; 256],
    ghost is_octet: { (k : ℕ) → k < 256 → slice_index octet k ≡ register_after_bits 8 k },
    ghost is_one: { (k : ℕ) → k < 256 → slice_index octet_and_one k ≡ register_after_bits 16 k },
    ghost is_two: { (k : ℕ) → k < 256 → slice_index octet_and_two k ≡ register_after_bits 24 k },
    ghost is_three: { (k : ℕ) → k < 256
        → slice_index octet_and_three k ≡ register_after_bits 32 k },
    ghost is_four: { (k : ℕ) → k < 256 → slice_index octet_and_four k ≡ register_after_bits 40 k },
    ghost is_five: { (k : ℕ) → k < 256 → slice_index octet_and_five k ≡ register_after_bits 48 k },
    ghost is_six: { (k : ℕ) → k < 256 → slice_index octet_and_six k ≡ register_after_bits 56 k },
    ghost is_seven: { (k : ℕ) → k < 256
        → slice_index octet_and_seven k ≡ register_after_bits 64 k },
}

impl Crc32c {
    /// Computes the tables.
    pub fn new() -> Crc32c {
        let octet = table_of_octets();
        let octet_and_one = table_after(&octet, &octet);
        let octet_and_two = table_after(&octet, &octet_and_one);
        let octet_and_three = table_after(&octet, &octet_and_two);
        let octet_and_four = table_after(&octet, &octet_and_three);
        let octet_and_five = table_after(&octet, &octet_and_four);
        let octet_and_six = table_after(&octet, &octet_and_five);
        let octet_and_seven = table_after(&octet, &octet_and_six);
        Crc32c {
            octet,
            octet_and_one,
            octet_and_two,
            octet_and_three,
            octet_and_four,
            octet_and_five,
            octet_and_six,
            octet_and_seven,
        }
    }

    /// The CRC-32C of the octets, a number of 32 bits.
    pub fn checksum(&self, octets: &[u8]) -> u32
        ensures { result ≡ crc32c octets.now }
    {
        let mut register = u32::MAX;
        let mut rest = octets;
        while let [a, b, c, d, e, f, g, h, after @ ..] = rest {
            let first = register ^ word_of(*a, *b, *c, *d);
            register = self.register_after_words(first, word_of(*e, *f, *g, *h));
            rest = after;
        }
        !self.register_after_few(register, rest)
    }

    /// The register after octets, one after another.
    fn register_after_few(&self, register: u32, octets: &[u8]) -> u32
        ensures { result ≡ register_after register octets.now }
    {
        let mut register = register;
        for octet in octets {
            register = self.register_after_octet(register, *octet);
        }
        register
    }

    /// The register after eight octets, each by a table of its own. The first word is the
    /// exclusive or of the register before them and the first four.
    fn register_after_words(&self, first: u32, second: u32) -> u32
        ensures { result ≡ register_after_bits 32 (bit_xor (register_after_bits 32 first) second) }
    {
        self.register_after_first(first) ^ self.register_after_second(second)
    }

    /// The register after a word and four octets of zeros.
    fn register_after_first(&self, word: u32) -> u32
        ensures { result ≡ register_after_bits 64 word }
    {
        self.octet_and_seven[(word % 256) as usize]
            ^ self.octet_and_six[(word / 256 % 256) as usize]
            ^ self.octet_and_five[(word / 65_536 % 256) as usize]
            ^ self.octet_and_four[(word / 16_777_216) as usize]
    }

    /// The register after a word.
    fn register_after_second(&self, word: u32) -> u32
        ensures { result ≡ register_after_bits 32 word }
    {
        self.octet_and_three[(word % 256) as usize]
            ^ self.octet_and_two[(word / 256 % 256) as usize]
            ^ self.octet_and_one[(word / 65_536 % 256) as usize]
            ^ self.octet[(word / 16_777_216) as usize]
    }

    /// The register after an octet.
    fn register_after_octet(&self, register: u32, octet: u8) -> u32
        ensures { result ≡ register_after_bits 8 (bit_xor register octet) }
    {
        let mixed = register ^ u32::from(octet);
        self.octet[(mixed % 256) as usize] ^ (mixed / 256)
    }
}

/// Four octets as a number, the lowest first.
fn word_of(a: u8, b: u8, c: u8, d: u8) -> u32
    ensures { result ≡ bit_xor (bit_xor (bit_xor a (b * 256)) (c * 65536)) (d * 16777216) }
{
    u32::from(a) ^ (u32::from(b) * 256) ^ (u32::from(c) * 65_536) ^ (u32::from(d) * 16_777_216)
}

/// The registers after each octet.
fn table_of_octets() -> [u32; 256]
    ensures { (k : ℕ) → k < 256 → slice_index result k ≡ register_after_bits 8 k }
{
    let mut table = [0u32; 256];
    for octet in 0..256usize {
        table[octet] = table_entry(octet as u32);
    }
    table
}

/// The registers of a table after an octet of zeros, which the table of octets gives.
fn table_after(octets: &[u32; 256], table: &[u32; 256]) -> [u32; 256]
    ensures { (k : ℕ) → k < 256 → slice_index result k
        ≡ bit_xor (slice_index octets.now (slice_index table.now k % 256))
        (slice_index table.now k / 256) }
{
    let mut after = [0u32; 256];
    for place in 0..256usize {
        let register = table[place];
        after[place] = octets[(register % 256) as usize] ^ (register / 256);
    }
    after
}

/// The register after an octet, if it was zero before it.
fn table_entry(octet: u32) -> u32
    ensures { result ≡ register_after_bits 8 octet }
{
    let mut register = octet;
    for bit in 0..8u32 {
        register = register_after_bit(register);
    }
    register
}

/// The register after a bit.
fn register_after_bit(register: u32) -> u32
    ensures { result ≡ register_after_bit register }
{
    if register % 2 == 1 {
        (register / 2) ^ 0x82F6_3B78
    } else {
        register / 2
    }
}
