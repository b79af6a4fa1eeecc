// The check of a message.
ghost use Rattle.std.specs.Prelude.{◌≡◌, codes};
ghost use Rattle.crc.specs.Register.{check_of, byte_bits};

use crate::Symbol;

// The register before the first bit.
const START: u32 = 0xFFFF_FFFF;

// The check of a message.
pub fn check<S: Symbol>(message: &[S]) -> u32
    ensures { result ≡ check_of (S.all_bits message.now) }
{
    let mut register = START;
    for symbol in message {
        register = symbol.enter(register);
    }
    register
}

// The check by which this register is told from others: that of the text 123456789.
pub fn known_check() -> u32
    ensures value { result ≡ check_of (byte_bits (codes "123456789")) }
    ensures known { result ≡ 0x0376E6E7 }
{
    of_digits()
}

fn of_digits() -> u32
    ensures { result ≡ check_of (byte_bits (codes "123456789")) }
{
    check(b"123456789")
}
