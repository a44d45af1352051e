// `check` and `list`: a script judged, and its lines shown.
ghost use Rattle.std.specs.Prelude.{◌≡◌, ◌++◌, IfOk, OnOk};
ghost use Rattle.script.specs.Views.{bytes_of};
ghost use Rattle.script.specs.Refusals.{told};
ghost use Rattle.script.specs.Judgement.{judged};
ghost use Rattle.script.specs.Lines.{records_of};
ghost use Rattle.console.specs.Pages.{page_text, Adds};
ghost use Rattle.console.specs.Texts.{row_text, rows_from, check_by, check_text, list_text};
ghost use Rattle.console.specs.Answers.{Shows};

use crate::page::Page;
use script::{Line, Refusal, Script};
use std::alloc::{AllocError, Global};

// What the program writes, and the refusal that it speaks of.
#[derive(Drop)]
pub struct Answer {
    pub text: Vec<u8>,
    pub refusal: Option<Refusal>,
}

fn write_row(page: &mut Page, number: usize, line: Line, text: &[u8]) -> Result<(), AllocError>
    ensures { OnOk result (Adds page.old page.new (row_text number line text.now)) }
{
    let Line { offset, length } = line;
    write!(page, "{number} {offset} {length} ")?;
    page.push(text)?;
    page.push(b"\n")
}

fn write_rows(page: &mut Page, script: &Script) -> Result<(), AllocError>
    ensures { OnOk result (Adds page.old page.new (rows_from (bytes_of script.now) 1 (records_of (bytes_of script.now)))) }
{
    let bytes = script.bytes();
    for (i, line) in script.lines().iter().enumerate() {
        write_row(page, i + 1, *line, line.text(bytes))?;
    }
    Ok(())
}

// What was written, and then the number of lines or the refusal.
fn finish(mut page: Page, judged: Result<usize, Refusal>) -> Result<Answer, AllocError>
    ensures { IfOk result (λ a. Shows a (told judged) (page_text page ++ check_by (told judged))) }
{
    match judged {
        Ok(count) => writeln!(page, "{count} lines")?,
        Err(refusal) => writeln!(page, "{refusal}")?,
    }
    Ok(Answer {
        text: page.into_bytes(),
        refusal: judged.err(),
    })
}

pub fn check(heap: Global, source: &[u8]) -> Result<Answer, AllocError>
    ensures { IfOk result (λ a. Shows a (judged source.now 1024) (check_text source.now)) }
{
    let mut directory = [Line::default(); 1024];
    finish(Page::new(heap), Script::new().check(source, &mut directory))
}

pub fn list(heap: Global, source: &[u8]) -> Result<Answer, AllocError>
    ensures { IfOk result (λ a. Shows a (judged source.now 1024) (list_text source.now)) }
{
    let mut directory = [Line::default(); 1024];
    let mut script = Script::new();
    let mut page = Page::new(heap);
    let judged = script.check(source, &mut directory);
    if judged.is_ok() {
        write_rows(&mut page, &script)?;
    }
    finish(page, judged)
}
