// What a program is given and gives: input, arguments, files.
#![tactic(auto)]

ghost use Rattle.std.specs.Prelude.{◌≤◌, length, IfOk, IfSome};

use std::env::{Env, FillError};
use std::fs::File;
use std::io::{Read, Write};
use std::{fs, io};

// Reads until the buffer is full or the input ends, and returns how many bytes it put at the buffer's start.
pub fn read_full<R: Read>(input: &mut R, buffer: &mut [u8]) -> io::Result<usize>
    ensures { IfOk result (λ n. n ≤ length buffer.new) }
{
    let mut done = 0;
    // not a range: how much a read gives is its own
    while done < buffer.len() {
        let n = input.read(&mut buffer[done..])?;
        if n == 0 {
            break;
        }
        done += n;
    }
    Ok(done)
}

// Argument i at the start of a text, and its length: 0 where it is missing or longer than the text.
pub fn arg(rt: &HostRuntime, i: usize, text: &mut [u8]) -> usize
    ensures { result ≤ length text.new }
{
    rt.arg(i, text).unwrap_or(0)
}

// How many arguments there are, the program's name among them, and 64 where there are more.
pub fn arg_count(rt: &HostRuntime) -> usize
    ensures { result ≤ 64 }
{
    let mut text = [0u8; 1];
    for i in 0..64 {
        if let Err(FillError::NotPresent) = rt.arg(i, &mut text) {
            return i;
        }
    }
    64
}

// Prints a line.
pub fn say(rt: &HostRuntime, line: &[u8]) -> io::Result<()> {
    rt.write_all(line)?;
    rt.write_all(b"\n")
}

// Prints a name and why a call on it failed, to the standard error.
pub fn fail(rt: &HostRuntime, what: &[u8], why: io::Error) -> io::Result<()> {
    let err = rt.stderr();
    err.write_all(what)?;
    err.write_all(b": ")?;
    err.println(why)
}

// A path is text: bytes that are none name no file.
fn path_of(bytes: &[u8]) -> io::Result<&str> {
    str::from_utf8(bytes).map_err(|_| io::Error::from(io::ErrorKind::InvalidInput))
}

// Opens a file and reads it into a buffer, until the buffer is full or the file ends.
pub fn read_path(rt: &HostRuntime, path: &[u8], buffer: &mut [u8]) -> io::Result<usize>
    ensures { IfOk result (λ n. n ≤ length buffer.new) }
{
    let mut file = fs::open(rt, path_of(path)?)?;
    read_full(&mut file, buffer)
}

// Makes a file, in place of what one of that name held.
pub fn create(rt: &HostRuntime, path: &[u8]) -> io::Result<File> {
    fs::create(rt, path_of(path)?)
}

// Gives a file another name, in place of a file that has it.
pub fn rename(rt: &HostRuntime, from: &[u8], to: &[u8]) -> io::Result<()> {
    fs::rename(rt, path_of(from)?, path_of(to)?)
}

// Takes a file away.
pub fn remove(rt: &HostRuntime, path: &[u8]) -> io::Result<()> {
    fs::remove_file(rt, path_of(path)?)
}

// Reads the file that argument i names into a buffer, and returns how many bytes it has: none, and the reason is
// printed, where it is not read. One that fills the buffer is too long.
pub fn read_arg(rt: &HostRuntime, i: usize, buffer: &mut [u8]) -> io::Result<Option<usize>>
    ensures { IfOk result (λ read. IfSome read (λ n. n ≤ length buffer.new)) }
{
    let mut path = [0u8; 4096];
    let length = arg(rt, i, &mut path);
    match read_path(rt, &path[..length], &mut *buffer) {
        Ok(n) => {
            if n < buffer.len() {
                return Ok(Some(n));
            }
        }
        Err(e) => {
            fail(rt, &path[..length], e)?;
            return Ok(None);
        }
    }
    rt.write_all(&path[..length])?;
    say(rt, b": too long")?;
    Ok(None)
}

fn write_both(file: &mut File, head: &[u8], body: &[u8]) -> io::Result<()> {
    file.write_all(head)?;
    file.write_all(body)
}

// Writes a file under the name `part`, and gives it the name `path` once all of it is there.
fn write_as(
    rt: &HostRuntime,
    path: &[u8],
    part: &[u8],
    head: &[u8],
    body: &[u8],
) -> io::Result<bool> {
    let mut file = match create(rt, part) {
        Ok(file) => file,
        Err(e) => {
            fail(rt, part, e)?;
            return Ok(false);
        }
    };
    let written = write_both(&mut file, head, body);
    drop(file);
    if let Err(e) = written.and_then(|()| rename(rt, part, path)) {
        let _ = remove(rt, part);
        fail(rt, path, e)?;
        return Ok(false);
    }
    Ok(true)
}

// Writes what stands in front and the rest to the file that argument i names, never half of it. Whether it did; the
// reason is printed.
pub fn write_arg(rt: &HostRuntime, i: usize, head: &[u8], body: &[u8]) -> io::Result<bool> {
    let mut path = [0u8; 4096];
    let length = arg(rt, i, &mut path);
    if length == 0 || 4000 < length {
        say(rt, b"OUT: no name, or one that is too long")?;
        return Ok(false);
    }
    let end = length + 5;
    let mut part = [0u8; 4096];
    part[..length].copy_from_slice(&path[..length]);
    part[length..end].copy_from_slice(b".part");
    write_as(rt, &path[..length], &part[..end], head, body)
}
