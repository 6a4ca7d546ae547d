//! The whitening of units and of type 2 voice.
ghost use Rattle.std.specs.Prelude.{◌≡◌, ◌*◌, ◌<◌, length};
ghost use Rattle.bits.specs.Bits.{bits_of};
ghost use Rattle.codes.specs.Whitening.{whitened, whitening, onward, further, Recurs};

/// The first nine bits of the whitening.
const START: u16 = 0b1_0010_0111;

fn one_on(register: u16) -> u16
    requires { register < 512 }
    ensures small { result < 512 }
    ensures bits { bits_of 9 result ≡ onward (bits_of 9 register) }
{
    register % 256 * 2 + (register / 256 + register / 16) % 2
}

fn eight_on(register: u16) -> u16
    requires { register < 512 }
    ensures small { result < 512 }
    ensures bits { bits_of 9 result ≡ further 8 (bits_of 9 register) }
{
    let mut further_on = register;
    // No index: the proof counts the steps by it.
    for _k in 0..8u32 {
        further_on = one_on(further_on);
    }
    further_on
}

/// Adds the whitening to bytes, from its start on. A second time takes it off again.
pub fn whiten(bytes: &mut [u8])
    ensures value { bytes.new ≡ whitened bytes.old }
    ensures rule { Recurs (whitening (8 * length bytes.old)) }
{
    let mut register = START;
    for byte in bytes.iter_mut() {
        *byte ^= (register / 2) as u8;
        register = eight_on(register);
    }
}
