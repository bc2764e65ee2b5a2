//! The layer of collisions: the text of a network whose names collide in each map, and the values of the first of them
//! too, is read.
//!
//! The hasher of std is fixed. It takes a name's length and then its bytes, and each byte sends its state of 64 bits to
//! another. So one can search for names that collide, as is done here: two parts that send a state to the same one, and
//! after them pairs that do so for that one, and so on, make twice as many names with each pair, a multicollision.

ghost use Rattle.std.specs.Prelude.{◌≡◌, ◌+◌, ◌<◌, ◌≤◌, min, vec_len, IfOk, OnOk};

use crate::fault::Fault;
use crate::texts::{push_number, read_network, up_to};
use name_table::VarId;
use std::alloc::{AllocError, Global};
use std::fmt;

/// The most names of a network.
const MOST_NAMES: u32 = 4_096;

/// The most values of a domain.
const MOST_VALUES: u32 = 65_536;

/// What a name is made of: one of each pair, in their order, and then `REST` and an ending. After either of a pair the
/// hasher has the same state. A pair was found among half a billion parts.
const PAIRS: [[&[u8]; 2]; 8] = [
    [b"Bck0M\x22", b"RNRDv\xcd"],
    [b"5APa2\x22", b"IZtTk\x4c"],
    [b"TpnDy\x22", b"fnqEz\x81"],
    [b"N4cvD\x22", b"9HPH8\x9a"],
    [b"O2njE\x22", b"JTTHt\x22"],
    [b"6z9jK\x22", b"QCXHe\x97"],
    [b"3hgLu\x22", b"Be1OY\x6c"],
    [b"9Bv91\x22", b"Egrnw\xf9"],
];

/// How many names there are of one ending.
const NAMES_OF_AN_ENDING: u32 = 256;

/// What each name has between its pairs and its ending.
const REST: &[u8] = b"0123456789ABCDEFGHIJKLMNOPQRSTUVWXYZabcdefg";

/// The endings, five bytes each. After each of them the hash has the same eight bits by which a map tells entries apart,
/// and the same thirteen by which it places them among 65,536. One in two million has these.
const ENDINGS: &[u8] =
    b"0000008OZz0A2r60F2dN0Fg7E0HlHm0JrNM0SYJC0UcFa0cuOu0gMJK0jMsK11Xn014ywf19JBj1H2d41LR3j1LhvF1S0Ep1ZNwI1gM3x1k6V51oeBh1vue728bfj2AB2d2Any62VEBw2ZEgQ2h3A62wLBE2yW9u3GMZm3olEE3tY32409r54Oqev4SC6U4eb054fSw851Jhm5ADSW5JSX55Pmzg5TzCh5ZGxt5c7b95iq4S68DYk6DnDI6SRmy6bQNr6dBOk6easX6el086jEgJ6tstG74hkQ77idY78FRz78LTI7BRHh7MuyX7XPEk7XvSj7lQff7wPnL8ERo18RIVl8Rhvd8sRsf99Ffa9GByN9IaDO9PKje9SRdh9UlcI9blNi9jJBl9oIbz9ofAc9p5ok9surX9tTj79wCleA6nAXAHx5dANpooAOdQQAPhC6AQQl7ATkg7AZ0qAAkVBwAmx87BH1q0BQD1RBStR6BnOpCBqaueBz3KxC752wC7lK9C9JscCD20SCHvVsCaXSwCbXmeCllElCuqQHCwnRlD2JziD9aQCDBYHeDQmGGDT7YZDXKbpDbN76Dtx0AE7PxnEH7bPEgM2vEp4TnEqwmGEs06VF16MEFHB6SFL2lqFLDqWFNeacFb5eFFds6dFeY0TFfBNXGCTxpGDfSLGNG0XGWdPzGb6HqGj4pXH3PbGHEEaAHGAVtHKgliHRsDkHWGDoHZahfHf2XIHkhTHHxIvvI0gQiI5RQqI8k7xIJ3EtILp0dIbbvmItEnaJYwFBJbYqLJk26SJme4NJuKSBK15lHK36vyKHstJKK6z0KUC6dKaDuaKb4JFKqI8YKr7A2KuPk7KvI5oLD0BaLRAzcLRpGSLZamZLhl8TLmtI2LqSlGLwa86LxZxFM9USQMIHW4MIJz7MZ4X4MlXXwN5nXaNAWQsNEgXHNM4KANNfRLNVI1HNYY6zNdQ4dNlNfANvZgcOEKSNOFf7LOOm2WOXfDkOkltZOsfOzP6WpYPCplLPG5bSPLmbxPMH7SPQkWMPSeLLPVmAdPWEEUPpPslPvJi4Pvn3iPwgdIPzCLJQAR0YQGyN4QHO1zQQsIPQaAeGQf6TkR4qSrR6iyjR8NkmR9soXRBlifREnoTRNaCPRUMyFRVPG5RYhUVRZJreRbbeZRisvTS4ZRdSGcRASOI0aSqq8QSwCBFSyfjXTBzyUTEYagTMemlTPzu9TRoM8TbhKjTgwM7TicHUTkPmyU34XTU5bNmUFLqUUOVdcUQ7KR";

/// What was counted of the network.
#[derive(Drop)]
pub struct CollisionCounts {
    pub names: u32,
    /// The values of the first name.
    pub values: u32,
}

impl fmt::Display for CollisionCounts {
    fn fmt<W: fmt::Write>(&self, f: &mut fmt::Formatter<W>) -> fmt::Result {
        let names = self.names;
        let values = self.values;
        write!(f, "{names} names, {values} values")
    }
}

/// Reads a text whose first name has so many values, and which has as many names, up to a bound. Counts both.
pub fn count_collisions(alloc: Global, size: u32) -> Result<CollisionCounts, Fault>
    ensures names { IfOk result (λ counts. counts.names ≡ min size MOST_NAMES) }
    ensures values { IfOk result (λ counts. counts.values ≡ size) }
{
    if size > MOST_VALUES {
        return Err(Fault::TooManyValues);
    }
    let wanted = up_to(size, MOST_NAMES);
    let text = collisions_text(alloc, wanted, size)?;
    let net = read_network(alloc, text.as_slice())?;
    let domain = net.names.domain(VarId(0)).ok_or(Fault::Differs)?;
    let counts = CollisionCounts {
        names: net.names.len(),
        values: domain.len(),
    };
    if counts.names != wanted || counts.values != size {
        return Err(Fault::Differs);
    }
    Ok(counts)
}

// The text of a network with so many inputs, to the first of which a line gives so many values.
fn collisions_text(alloc: Global, names: u32, values: u32) -> Result<Vec<u8>, AllocError>
    requires names { names ≤ MOST_VALUES }
    requires values { values ≤ MOST_VALUES }
    ensures { IfOk result (λ text. names + values ≤ vec_len text) }
{
    let mut text = Vec::new(alloc);
    text.extend_from_slice(b".model collisions\n.inputs")?;
    push_colliding(&mut text, names)?;
    text.extend_from_slice(b"\n.mv")?;
    push_colliding(&mut text, 1)?;
    text.push(b' ')?;
    push_number(alloc, &mut text, values)?;
    push_colliding(&mut text, values)?;
    text.extend_from_slice(b"\n.end\n")?;
    Ok(text)
}

/// Puts so many names at the end of a text, a space before each.
pub(crate) fn push_colliding(text: &mut Vec<u8>, size: u32) -> Result<(), AllocError>
    requires { size ≤ MOST_VALUES }
    ensures { OnOk result (vec_len text.old + size ≤ vec_len text.new) }
{
    for number in 0..size {
        text.push(b' ')?;
        push_name(text, number)?;
    }
    Ok(())
}

/// Puts the name with this number at the end of a text.
pub(crate) fn push_name(text: &mut Vec<u8>, number: u32) -> Result<(), AllocError>
    requires { number < MOST_VALUES }
    ensures { OnOk result (vec_len text.old ≤ vec_len text.new) }
{
    let mut choices = number;
    for pair in PAIRS {
        text.extend_from_slice(pair[(choices % 2) as usize])?;
        choices /= 2;
    }
    text.extend_from_slice(REST)?;
    let at = 5 * (number / NAMES_OF_AN_ENDING) as usize;
    text.extend_from_slice(&ENDINGS[at..at + 5])
}
