// What the header of a case says.
use crate::space::fill_numbers;
use crate::stop::Stop;
use std::io::Read;

// The call's letter, how much is lent of everything, and the two numbers at the header's end, which each call reads in its own way.
#[derive(Clone, Copy)]
pub struct Case {
    pub call: u8,
    pub image_bytes: usize,
    pub patch_bytes: usize,
    pub read_rows: usize,
    pub written_rows: usize,
    pub id_count: usize,
    amount: u32,
    last: u32,
}

impl Case {
    // Reads the next header.
    pub fn read(input: &mut impl Read) -> Result<Case, Stop> {
        let mut header = [0u32; 8];
        fill_numbers(input, &mut header)?;
        let [
            call,
            image_bytes,
            patch_bytes,
            read_rows,
            written_rows,
            id_count,
            amount,
            last,
        ] = header;
        Ok(Case {
            call: (call % 256) as u8,
            image_bytes: image_bytes as usize,
            patch_bytes: patch_bytes as usize,
            read_rows: read_rows as usize,
            written_rows: written_rows as usize,
            id_count: id_count as usize,
            amount,
            last,
        })
    }

    // The bytes of the room for the image.
    pub fn room_bytes(&self) -> usize {
        self.amount as usize
    }

    // The reserve of a room call.
    pub fn reserve(&self) -> u32 {
        self.amount
    }

    // The limit on chains opened.
    pub fn limit(&self) -> u32 {
        self.amount
    }

    // The steps of a run.
    pub fn steps(&self) -> u32 {
        self.last
    }

    // The id of the task that a chain call is about.
    pub fn id(&self) -> u32 {
        self.last
    }
}
