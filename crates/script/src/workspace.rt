// What a script works on: what its lines set, and the memories of its walks and runs.
use crate::lists::{File, List};
use crate::text::{read_list, read_numbers, split_word};
use crate::{blocks, tables};
use std::io;
use std::io::Write;
use word::index;

// The cells of each of the two memories, and the numbers of the largest block.
pub const MEMORY: usize = 17000;

pub const BLOCK: usize = 131200;

#[derive(Drop)]
pub struct Workspace {
    pub table: List<2000>,
    pub second: List<2000>,
    pub code: List<13000>,
    pub inputs: List<BLOCK>,
    pub controls: List<32>,
    pub probes: List<64>,
    pub latest: [u32; 40],
    pub file: File,
    pub walked: [u32; MEMORY],
    pub ran: [u32; MEMORY],
    pub buffer: [u32; BLOCK],
}

impl Workspace {
    pub fn new() -> Self {
        Workspace {
            table: List::new(),
            second: List::new(),
            code: List::new(),
            inputs: List::new(),
            controls: List::new(),
            probes: List::new(),
            latest: [0; 40],
            file: File::new(),
            walked: [0; MEMORY],
            ran: [0; MEMORY],
            buffer: [0; BLOCK],
        }
    }

    // One line, with the text behind it; gives how many bytes of that text belong to the line.
    pub fn play_line<W: Write>(
        &mut self,
        out: &mut W,
        line: &[u8],
        behind: &[u8],
    ) -> io::Result<usize> {
        let (word, arguments) = split_word(line);
        match word {
            b"#" => {
                out.write_all(line)?;
                writeln!(out)?;
            }
            b"file" => {
                let [len] = read_numbers::<1>(arguments);
                return Ok(self.file.copy(behind, index(len)));
            }
            _ => {
                self.set_numbers(word, arguments);
                self.call(out, word, arguments)?;
            }
        }
        Ok(0)
    }

    // The lines that set numbers.
    fn set_numbers(&mut self, word: &[u8], arguments: &[u8]) {
        match word {
            b"table" => self.table.read(arguments),
            b"second" => self.second.read(arguments),
            b"code" => self.code.read(arguments),
            b"inputs" => self.inputs.read(arguments),
            b"controls" => self.controls.read(arguments),
            b"probes" => self.probes.read(arguments),
            b"latest" => {
                read_list(arguments, &mut self.latest);
            }
            b"memory" => {
                let [value] = read_numbers::<1>(arguments);
                self.walked = [value; MEMORY];
                self.ran = [value; MEMORY];
            }
            _ => {}
        }
    }

    // The lines that call an entry, or print.
    fn call<W: Write>(&mut self, out: &mut W, word: &[u8], arguments: &[u8]) -> io::Result<()> {
        match word {
            b"check" => tables::check(out, self.table.set()),
            b"read" => tables::read(self, out, arguments),
            b"join" => tables::join(self, out, arguments),
            b"write" => tables::write(self, out, arguments),
            b"translate" => tables::translate(self, out, arguments),
            b"print" => tables::print(out, self.file.set()),
            b"play" => console::play_held(out, self.file.set()),
            b"load" => blocks::load(self, out, arguments),
            b"walk" => blocks::walk(self, out, arguments),
            b"probed" => blocks::walk_probed(self, out, arguments),
            b"run" => blocks::run(self, out, arguments),
            b"cells" => blocks::cells(self, out, arguments),
            _ => Ok(()),
        }
    }
}
