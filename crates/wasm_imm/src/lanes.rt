ghost use Rattle.wasm_below.specs.Source.{Reads, IsByte, EndFault, EndsWithin};
ghost use Rattle.wasm_imm.specs.Vectors.{EncodesSixteen, LanesFault};

use wasm_below::{BinaryReader, Error, Message, Result};

/// Reads the number of a lane, of any value. Specification: Vector Instructions. Fails with
/// `EndOfData`.
#[inline(always)]
pub fn read_lane(reader: &mut BinaryReader<'_>) -> Result<u8>
    ensures { Reads IsByte EndFault result reader.old reader.new }
{
    reader.read_u8()
}

/// Reads the sixteen lanes of a shuffle. Specification: Vector Instructions. Fails with `EndOfData`
/// at the end of the data.
#[inline(never)]
pub fn read_lanes(reader: &mut BinaryReader<'_>) -> Result<[u8; 16]>
    ensures { Reads EncodesSixteen LanesFault result reader.old reader.new }
{
    match read_sixteen(reader) {
        Ok(lanes) => Ok(lanes),
        Err(_) => Err(Error::new(Message::EndOfData, reader.remaining_range().end)),
    }
}

#[inline(always)]
pub fn read_sixteen(reader: &mut BinaryReader<'_>) -> Result<[u8; 16]>
    ensures { Reads EncodesSixteen (EndsWithin 16) result reader.old reader.new }
{
    match reader.read_bytes(16) {
        Ok(block) => {
            let mut bytes = [0; 16];
            bytes.copy_from_slice(block);
            Ok(bytes)
        }
        Err(e) => Err(e),
    }
}
