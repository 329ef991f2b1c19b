// What the program prints for what was read of its two files, in lent bytes.
#![tactic(auto)]

ghost use Rattle.std.specs.Prelude.{◌≤◌, ◌≡◌, length, MatchOption, Some, None};
ghost use Rattle.format.specs.Engine.{engine};
ghost use Rattle.format.specs.Printed.{printed, program_prints, program_room, readable};
ghost use Rattle.putting.specs.Put.{PutWhole};
ghost use Rattle.program.specs.Files.{file_of, Within, Shows};

use lookup::Input;

// The whole text of the answer, made in buffers that are enough for every case of 65,536 bytes.
fn put_text(case: &[u8], book: &[u8], out: &mut [u8]) -> usize
    requires { 131072 ≤ length out.old }
    ensures { PutWhole (printed (engine case.now book.now program_room)) out.old out.new result }
{
    let mut places = [0u16; 512];
    let mut visits = [0u16; 8192];
    let mut seats = [0u16; 32768];
    let mut index = [0u16; 4096];
    let mut words = [0u64; 1089];
    let counts = match answering::test(
        case, book, 512, 8192, &mut seats, &mut index, 512, &mut words,
    ) {
        Ok(counts) => counts,
        Err(refusal) => return printing::put_answer(Err(refusal), 0, &places, &visits, out),
    };
    let input = Input::new(
        case,
        &words,
        book,
        &index,
        counts.students,
        counts.workshops,
    );
    let answer = engine::run_alone(&input, &mut places, &mut visits, &mut seats);
    printing::put_answer(Ok(answer), counts.students, &places, &visits, out)
}

// The bytes of the file that was read into the buffer; none where it is too long or cannot be read.
fn readable(read: Option<usize>, buffer: &[u8]) -> Option<&[u8]>
    requires { Within read buffer.now }
    ensures { MatchOption result
        (readable (file_of read buffer.now) ≡ None)
        (λ bytes. readable (file_of read buffer.now) ≡ Some bytes.now) }
{
    match read {
        Some(n) if n <= 65536 => Some(&buffer[..n]),
        _ => None,
    }
}

// All that the program prints for the two files. Each was read into a buffer: so many bytes stand at its head, and they are the whole file where they do not
// fill it; or none, where the file is missing or cannot be read.
pub fn put_program(
    case: &[u8],
    casefile: Option<usize>,
    book: &[u8],
    bookfile: Option<usize>,
    out: &mut [u8],
) -> usize
    requires { (Shows casefile case.now) × (Shows bookfile book.now) × (131072 ≤ length out.old) }
    ensures { PutWhole (program_prints (file_of casefile case.now) (file_of bookfile book.now))
        out.old out.new result }
{
    match (readable(casefile, case), readable(bookfile, book)) {
        (Some(case), Some(book)) => put_text(case, book, out),
        _ => printing::put_unread(out),
    }
}
