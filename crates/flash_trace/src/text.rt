// The texts of replies and of closing lines, with memory of their own.
ghost use Rattle.std.specs.Prelude.{◌≡◌, ◌≤◌, ◌++◌, ◌∷◌, [], length, decimal, IfOk};
ghost use Rattle.call_script.specs.Replies.{text};
ghost use Rattle.call_script.specs.Pieces.{IsShort};
ghost use Rattle.plain_table.specs.Seen.{file as the_file, said as the_said};
ghost use Rattle.table_model.specs.Files.{stat_of as the_stat};
ghost use Rattle.table_model.specs.Reply.{Gives, answered};

use call_script::{put, put_count, reply_text};
use plain_table::{PlainFile, Said};
use std::alloc::{AllocError, Global};
use table_model::{Meta, Name, Reply, Stat};

// The line of a reply.
fn line_of(alloc: Global, reply: &Reply<'_>) -> Result<Vec<u8>, AllocError>
    requires { IsShort reply.now }
    ensures { IfOk result (λ line. line.items ≡ text (answered reply.now)) }
{
    let mut line = [0; 4096];
    let length = reply_text(reply, &mut line);
    line[..length].to_vec(alloc)
}

// The record of a file. Longer names, meta bytes and files than any volume's are wants of memory.
fn stat_of(file: &PlainFile) -> Result<Stat, AllocError>
    ensures { IfOk result (λ stat. stat ≡ the_stat (the_file file.now)) }
{
    let size = file.bytes.len();
    if file.name.len() > 31 || file.meta.len() > 64 || size > 0xffff_ffff {
        return Err(AllocError);
    }
    Ok(Stat {
        id: file.id,
        kind: file.kind,
        size: size as u32,
        name: Name::from_slice(file.name.as_slice()),
        meta: Meta::from_slice(file.meta.as_slice()),
    })
}

// The line of the reply of that many bytes; more than any call reads are a want of memory.
fn bytes_line(alloc: Global, bytes: &[u8]) -> Result<Vec<u8>, AllocError>
    ensures { IfOk result (λ line. line.items ≡ text (Gives bytes.now)) }
{
    if bytes.len() > 1024 {
        return Err(AllocError);
    }
    line_of(alloc, &Reply::Bytes(bytes))
}

// The line of an answer.
pub(crate) fn text_of(alloc: Global, said: &Said) -> Result<Vec<u8>, AllocError>
    ensures { IfOk result (λ line. line.items ≡ text (the_said said.now)) }
{
    match said {
        Said::Done => line_of(alloc, &Reply::Done),
        Said::NoMore => line_of(alloc, &Reply::NoMore),
        Said::Room(info) => line_of(alloc, &Reply::Room(*info)),
        Said::Refusal(why) => line_of(alloc, &Reply::Refusal(*why)),
        Said::File(file) => line_of(alloc, &Reply::File(stat_of(file)?)),
        Said::Number(number) => line_of(alloc, &Reply::Number(*number)),
        Said::Bytes(bytes) => bytes_line(alloc, bytes.as_slice()),
    }
}

// A line of a label and a number.
pub(crate) fn counted_line(alloc: Global, label: &[u8], number: u32) -> Result<Vec<u8>, AllocError>
    requires { length label.now ≤ 32 }
    ensures { IfOk result (λ line. line.items ≡ (label.now ++ decimal number) ++ (10 ∷ [])) }
{
    let mut line = [0; 64];
    let end = put_count(&mut line, 0, label, number);
    let end = put(&mut line, end, b"\n");
    line[..end].to_vec(alloc)
}
