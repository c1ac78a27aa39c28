// Bytes that say a value.
ghost use Rattle.std.specs.Prelude.{◌≡◌, ℕ, List, ◌++◌, OnOk};
ghost use Rattle.std.specs.List.{flat_map};
ghost use Rattle.records.specs.Record.{bytes2, bytes4};

use std::alloc::AllocError;

// What has one form of bytes (a serializer).
pub trait Bytes {
    ghost bytes: { Self → List ℕ };

    // Puts them behind what is there.
    fn put(&self, out: &mut Vec<u8>) -> Result<(), AllocError>
        ensures { OnOk result (out.new.items ≡ out.old.items ++ bytes self.now) };
}

impl Bytes for u16 {
    ghost bytes = { bytes2 };

    fn put(&self, out: &mut Vec<u8>) -> Result<(), AllocError> {
        out.extend_from_slice(&u16::to_be_bytes(*self))
    }
}

impl Bytes for u32 {
    ghost bytes = { bytes4 };

    fn put(&self, out: &mut Vec<u8>) -> Result<(), AllocError> {
        out.extend_from_slice(&u32::to_be_bytes(*self))
    }
}

// Puts the bytes of each behind what is there.
pub fn put_each<T: Bytes>(each: &[T], out: &mut Vec<u8>) -> Result<(), AllocError>
    ensures { OnOk result (out.new.items ≡ out.old.items ++ flat_map T.bytes each.now) }
{
    for one in each {
        one.put(out)?;
    }
    Ok(())
}

#[cfg(test)]
mod tests {
    use super::*;
    use crate::place::Place;
    use std::test::Fail;

    #[test]
    fn each_behind_the_other(rt: HostRuntime) -> Result<(), Fail> {
        let mut out = Vec::new(rt.alloc());
        out.push(78)?;
        let places = [
            Place {
                machine: 0,
                doing: 500,
            },
            Place {
                machine: 39,
                doing: 2,
            },
        ];
        put_each(&places, &mut out)?;
        assert!(rt; out.as_slice() == [78, 0, 1, 244, 39, 0, 2].as_slice());
        Ok(())
    }
}
