// Questions about a book in two blocks, answered by the calls that the program makes.
use byte_parts::part;
use transcript_writer::Tables;

const STDOUT: i32 = 1;

// What is left of the input, and the number of the next question.
#[derive(Clone, Copy)]
struct Left {
    bytes: [u8; 64],
    size: usize,
    number: u64,
}

impl Left {
    // Answers a block after what is left of the one before, and writes its lines.
    fn answer(&mut self, tables: Tables, block: &[u8]) {
        self.append(block);
        let mut out = [0u8; 1024];
        let progress = transcript_writer::answer_block(
            tables,
            self.number,
            &mut self.bytes,
            self.size,
            &mut out,
        );
        io::write_all(STDOUT, part(&out, 0, progress.written));
        self.size = progress.kept;
        self.number = progress.number;
    }

    // Puts a block behind what is left, as far as there is room.
    fn append(&mut self, block: &[u8]) {
        for (place, byte) in self.bytes.iter_mut().skip(self.size).zip(block) {
            *place = *byte;
        }
        self.size = self.size.saturating_add(block.len()).min(64);
    }

    // Writes the last line, of a question that is cut.
    fn end(&self) {
        let mut line = [0u8; 64];
        let size = transcript_writer::last_line(
            self.number,
            part(&self.bytes, 0, self.size),
            &mut line,
        );
        io::write_all(STDOUT, part(&line, 0, size));
    }
}

// Writes all that the program would write for a book and questions in two blocks.
pub(crate) fn try_blocks(book: &[u8], first: &[u8], second: &[u8]) {
    let mut line = [0u8; 72];
    let opening = transcript_writer::open(book, &mut line);
    io::write_all(STDOUT, part(&line, 0, opening.written));
    let Some(tables) = opening.tables else {
        return;
    };
    let mut left = Left {
        bytes: [0; 64],
        size: 0,
        number: 0,
    };
    left.answer(tables, first);
    left.answer(tables, second);
    left.end();
}
