//! A large workspace: .bzl files with random loads among them, some with a fault, and BUILD files that load them.

use crate::random::random_rows;
use crate::workspace::file;
use bq_label::File;
use itoa::Buffer;
use std::alloc::{AllocError, Global};

/// How many .bzl files there are.
pub const COUNT: u32 = 200;

/// A part of a text.
#[derive(Clone, Copy)]
enum Part<'a> {
    Text(&'a str),
    Number(u32),
}

fn add_number(text: &mut Vec<u8>, number: u32) -> Result<(), AllocError> {
    let mut digits = Buffer::new();
    text.extend_from_slice(digits.format(number).as_bytes())
}

fn add(text: &mut Vec<u8>, parts: &[Part<'_>]) -> Result<(), AllocError> {
    for part in parts {
        match part {
            Part::Text(part) => text.extend_from_slice(part.as_bytes())?,
            Part::Number(number) => add_number(text, *number)?,
        }
    }
    Ok(())
}

/// The loads of a file, whose values are `v0`, `v1` and so on.
fn add_loads(text: &mut Vec<u8>, row: &[u32]) -> Result<(), AllocError> {
    let mut at = 0u32;
    for other in row {
        let line = [
            Part::Text("load(\"//:m"),
            Part::Number(*other),
            Part::Text(".bzl\", v"),
            Part::Number(at),
            Part::Text(" = \"v\")\n"),
        ];
        add(text, &line)?;
        at = at.wrapping_add(1);
    }
    Ok(())
}

/// Lines that print the values of the loads.
fn add_prints(text: &mut Vec<u8>, row: &[u32]) -> Result<(), AllocError> {
    let mut at = 0u32;
    for _ in row {
        let line = [
            Part::Text("print(v, v"),
            Part::Number(at),
            Part::Text(")\n"),
        ];
        add(text, &line)?;
        at = at.wrapping_add(1);
    }
    Ok(())
}

/// What is wrong with a few of the files: their text, a load, a symbol, or what they do.
fn fault_of(m: u32) -> &'static str {
    match m % 43 {
        5 => "(\n",
        11 => "load(\":none.bzl\", \"w\")\n",
        17 => "load(\":m3.bzl\", w = \"none\")\n",
        23 => "load(\":m3.bzl\", w = \"_v\")\n",
        29 => "w = 1 // 0\n",
        _ => "",
    }
}

/// A file that prints what it loads, and the number that it makes of it.
fn add_bzl_text(text: &mut Vec<u8>, m: u32, row: &[u32]) -> Result<(), AllocError> {
    add_loads(text, row)?;
    add(
        text,
        &[Part::Text("v = "), Part::Number(m), Part::Text("\n")],
    )?;
    add_prints(text, row)?;
    add(
        text,
        &[Part::Text(fault_of(m)), Part::Text("print(\"end\")\n")],
    )
}

/// A BUILD file that loads one file, prints its value and declares a target.
fn add_build_text(text: &mut Vec<u8>, m: u32) -> Result<(), AllocError> {
    let line = [
        Part::Text("print(v0)\nfilegroup(name = \"x\", srcs = [\"//:m"),
        Part::Number(m),
        Part::Text(".bzl\"])\n"),
    ];
    add_loads(text, &[m])?;
    add(text, &line)
}

/// The .bzl file with this number, in the root package.
fn bzl_file(alloc: Global, m: u32, row: &[u32]) -> Result<File, AllocError> {
    let mut path = Vec::new(alloc);
    add(
        &mut path,
        &[Part::Text("m"), Part::Number(m), Part::Text(".bzl")],
    )?;
    let mut text = Vec::new(alloc);
    add_bzl_text(&mut text, m, row)?;
    file(alloc, &path, &text)
}

/// The BUILD file of a package that loads the .bzl file with this number.
fn build_file(alloc: Global, m: u32) -> Result<File, AllocError> {
    let mut path = Vec::new(alloc);
    add(
        &mut path,
        &[Part::Text("p"), Part::Number(m), Part::Text("/BUILD")],
    )?;
    let mut text = Vec::new(alloc);
    add_build_text(&mut text, m)?;
    file(alloc, &path, &text)
}

/// Adds a .bzl file for each row of loads, and a package that loads it.
fn add_files(alloc: Global, rows: &[Vec<u32>], files: &mut Vec<File>) -> Result<(), AllocError> {
    let mut m = 0u32;
    for row in rows {
        files.push(bzl_file(alloc, m, row)?)?;
        files.push(build_file(alloc, m)?)?;
        m = m.wrapping_add(1);
    }
    Ok(())
}

/// The files of the workspace that this seed gives.
pub fn files(alloc: Global, seed: u64) -> Result<Vec<File>, AllocError> {
    let rows = random_rows(alloc, seed, COUNT)?;
    let mut files = Vec::new(alloc);
    files.push(file(alloc, b"BUILD", b"print(\"root\")\n")?)?;
    add_files(alloc, &rows, &mut files)?;
    Ok(files)
}
