// The file: records are listed, a block is formed of them or a closing made after them, blocks are gathered in a run, and the run is taken. A target is filled
// before a call, so that a byte that was written is seen.
use crate::desk::{BLOCK, Desk, FILL, TARGET};
use crate::record_cases::set;
use crate::script_command::{Command, Word};
use file::{Closing, Refused};

// The number of the row that refused a call, 0 for none, and the place of the record at fault, 255 for none.
fn row_and_place(refused: Option<Refused>) -> [i128; 2] {
    match refused {
        Some(r) => [r.row.number().into(), r.place.unwrap_or(255).into()],
        None => [0, 255],
    }
}

impl<R: Print> Desk<'_, R> {
    // Commands on records that are listed and on the run. Whether the command is one of them, and was obeyed.
    pub fn obey_file(&mut self, command: &Command) -> bool {
        match command.word {
            Word::Check => self.check(command.text),
            Word::List => self.list(),
            Word::Clear => {
                self.list.clear();
                self.formed = 0;
            }
            Word::Form => self.form(None, command.a.size, command.b.size),
            Word::Make => {
                let closing = Closing {
                    kind: command.a.byte,
                    minute: command.b.unsigned,
                    z: command.c.small,
                };
                self.form(Some(closing), command.d.size, command.e.size);
            }
            Word::Take => self.take(command.a.size),
            Word::Poke => {
                if !set(self.run.as_flattened_mut(), command.a.size, command.b.size) {
                    self.no_room();
                }
            }
            Word::Seal => self.seal(command.a.size),
            Word::Bytes => self.bytes(command.a.size, command.b.size),
            _ => return self.obey_charts(command),
        }
        true
    }

    fn no_room(&mut self) {
        self.text(b" no room");
    }

    // The check of some bytes.
    fn check(&mut self, text: &[u8]) {
        let [high, low] = file::check(text).to_be_bytes();
        self.text(text);
        self.print(b": check %%\n", &[high.into(), low.into()]);
    }

    // The prepared record is listed.
    fn list(&mut self) {
        if self.list.try_extend_from_slice(&self.record).is_err() {
            self.no_room();
        }
    }

    // A block of the listed records, but for their last `less` bytes, in a target of `size` bytes; or a closing after them, where there is one to make.
    fn form(&mut self, closing: Option<Closing>, size: usize, less: usize) {
        let list = self.list.as_slice();
        if TARGET < size || list.len() < less {
            return self.no_room();
        }
        let bytes = &list[..list.len() - less];
        let mut target = [FILL; TARGET];
        let asked = &mut target[..size];
        let refused = match closing {
            Some(closing) => file::make_closing(
                self.state,
                self.edition,
                bytes,
                closing,
                asked,
            ).err(),
            None => match file::append(self.state, self.edition, bytes, asked) {
                Ok(after) => {
                    self.state = after;
                    None
                }
                Err(refused) => Some(refused),
            },
        };
        self.target = target;
        self.print(b" refused # place #", &row_and_place(refused));
        self.text(if target == [FILL; TARGET] {
            b" kept".as_slice()
        } else {
            b" written"
        });
        if refused.is_none() {
            self.keep_formed(closing.is_some());
        }
    }

    // A closing that was made is the prepared record. A block that was formed goes behind the run, and the list is empty.
    fn keep_formed(&mut self, is_closing: bool) {
        if is_closing {
            return self.record.copy_from_slice(&self.target[..40]);
        }
        let Some(block) = self.run.get_mut(self.formed) else {
            return self.no_room();
        };
        block.copy_from_slice(&self.target[..BLOCK]);
        self.formed += 1;
        self.list.clear();
    }

    // The first `size` bytes of the run.
    fn take(&mut self, size: usize) {
        let Some(run) = self.run.as_flattened().get(..size) else {
            return self.no_room();
        };
        let r = file::take(self.state, run);
        self.state = r.state;
        let [row, place] = row_and_place(r.ended.err());
        let figures = [r.blocks.into(), row, place, r.state.next.into()];
        self.print(b" blocks # refused # place # next #", &figures);
    }

    // A block of the run gets its check.
    fn seal(&mut self, block: usize) {
        let Some(block) = self.run.get_mut(block) else {
            return self.no_room();
        };
        let check = file::check(&block[..510]);
        records::bytes::write16(block, 510, check);
    }

    // Bytes of the target, as far as there are such, in hexadecimal.
    fn bytes(&mut self, from: usize, to: usize) {
        let target = self.target;
        self.text(b" ");
        for byte in target.get(from..to.min(TARGET)).unwrap_or(&[]) {
            self.print(b"%", &[(*byte).into()]);
        }
    }
}
