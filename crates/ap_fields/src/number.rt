// Unsigned numbers of 16, 32 and 64 bits in bytes, the lowest byte first, as ELF, PE and Mach-O files of x86-64 and
// AArch64 hold them.
ghost use Rattle.std.specs.Prelude.{◌≡◌, ◌+◌, ◌≤◌, length};
ghost use Rattle.ap_fields.specs.Fields.{number_at, Puts};

use byteorder::{ByteOrder, LittleEndian};

/// The 16-bit number whose lowest byte stands at `at`.
pub fn le16(b: &[u8], at: usize) -> u16
    requires { at + 2 ≤ length b.now }
    ensures { result ≡ number_at 2 at b.now }
{
    LittleEndian::read_u16(&b[at..])
}

/// The 32-bit number whose lowest byte stands at `at`.
pub fn le32(b: &[u8], at: usize) -> u32
    requires { at + 4 ≤ length b.now }
    ensures { result ≡ number_at 4 at b.now }
{
    LittleEndian::read_u32(&b[at..])
}

/// The 64-bit number whose lowest byte stands at `at`.
pub fn le64(b: &[u8], at: usize) -> u64
    requires { at + 8 ≤ length b.now }
    ensures { result ≡ number_at 8 at b.now }
{
    LittleEndian::read_u64(&b[at..])
}

/// Writes a 16-bit number, its lowest byte at `at`. All other bytes stay.
pub fn put16(b: &mut [u8], at: usize, v: u16)
    requires { at + 2 ≤ length b.old }
    ensures { Puts 2 at v b.old b.new }
{
    LittleEndian::write_u16(&mut b[at..], v);
}

/// Writes a 32-bit number, its lowest byte at `at`. All other bytes stay.
pub fn put32(b: &mut [u8], at: usize, v: u32)
    requires { at + 4 ≤ length b.old }
    ensures { Puts 4 at v b.old b.new }
{
    LittleEndian::write_u32(&mut b[at..], v);
}

/// Writes a 64-bit number, its lowest byte at `at`. All other bytes stay.
pub fn put64(b: &mut [u8], at: usize, v: u64)
    requires { at + 8 ≤ length b.old }
    ensures { Puts 8 at v b.old b.new }
{
    LittleEndian::write_u64(&mut b[at..], v);
}
