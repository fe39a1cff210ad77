// Reading a case, line by line.
use crate::failure::Failure;
use crate::step::{Input, Output, Run, Step, Sum, What};
use crate::words::{bytes, bytes_times, fill, malformed, number, numbers, sum, words_of};
use std::alloc::Global;

/// The steps of a case, in order. The first line that is none is refused.
pub(crate) fn read_case(alloc: Global, text: &str) -> Result<Vec<Step>, Failure> {
    let mut reader = Reader {
        alloc,
        steps: Vec::new(alloc),
        run: None,
    };
    for (index, line) in text.split('\n').enumerate() {
        reader.read(index.saturating_add(1), line)?;
    }
    reader.end_run()?;
    Ok(reader.steps)
}

// The steps so far, and the run whose lines are read, with its line.
#[derive(Drop)]
struct Reader {
    alloc: Global,
    steps: Vec<Step>,
    run: Option<(usize, Run)>,
}

impl Reader {
    // One more line.
    fn read(&mut self, line: usize, text: &str) -> Result<(), Failure> {
        let (mark, rest) = text.split_once(' ').unwrap_or((text, ""));
        match mark {
            "" if text.is_empty() => Ok(()),
            "#" => Ok(()),
            "$" => self.begin_run(line, rest),
            "<" | "<+" | "<<" | "|" | ">>" | "=" | "!" | "*" => match &mut self.run {
                Some((_, run)) => read_of_run(self.alloc, run, line, mark, rest),
                None => Err(malformed(line, "this belongs to a run, and there is none")),
            },
            _ => self.step(line, mark, rest),
        }
    }

    // A run begins, and the one before it is at its end.
    fn begin_run(&mut self, line: usize, rest: &str) -> Result<(), Failure> {
        self.end_run()?;
        let mut words = words_of(self.alloc, rest)?;
        if words.is_empty() {
            return Err(malformed(line, "the path of a store is wanted"));
        }
        let store = words.remove(0);
        self.run = Some((line, Run::new(self.alloc, store, words)));
        Ok(())
    }

    // A step that is no run.
    fn step(&mut self, line: usize, mark: &str, rest: &str) -> Result<(), Failure> {
        self.end_run()?;
        let words = words_of(self.alloc, rest)?;
        let what = read_step(self.alloc, line, mark, &words)?;
        self.steps.push(Step { line, what })?;
        Ok(())
    }

    // The run, if there is one, has all its lines.
    fn end_run(&mut self) -> Result<(), Failure> {
        match self.run.take() {
            None => Ok(()),
            Some((line, run)) if run.status.is_none() => {
                Err(malformed(line, "the run has no status"))
            }
            Some((line, run)) => {
                let what = What::Run(run);
                self.steps.push(Step { line, what })?;
                Ok(())
            }
        }
    }
}

// What a step is that is no run.
fn read_step(alloc: Global, line: usize, mark: &str, words: &[String]) -> Result<What, Failure> {
    match (mark, words) {
        ("@", [file]) => Ok(What::Put {
            file: file.clone()?,
            bytes: Vec::new(alloc),
        }),
        ("@", [file, word]) => Ok(What::Put {
            file: file.clone()?,
            bytes: bytes(alloc, line, word.as_str())?,
        }),
        ("~", [file, place, word]) => Ok(What::Change {
            file: file.clone()?,
            place: number(line, place.as_str())?,
            bytes: bytes(alloc, line, word.as_str())?,
        }),
        ("-", [file, length]) => Ok(What::Cut {
            file: file.clone()?,
            length: number(line, length.as_str())?,
        }),
        ("+", [file, count, word]) => Ok(What::Append {
            file: file.clone()?,
            bytes: bytes_times(alloc, line, count.as_str(), word.as_str())?,
        }),
        ("&", [from, to]) => Ok(What::Copy {
            from: from.clone()?,
            to: to.clone()?,
        }),
        ("^", [store, calls, word, to]) => Ok(What::Stop {
            store: store.clone()?,
            calls: number(line, calls.as_str())?,
            fill: fill(line, word.as_str())?,
            to: to.clone()?,
        }),
        ("%", [file, length, hash]) => Ok(What::Holds {
            file: file.clone()?,
            sum: sum(line, length.as_str(), hash.as_str())?,
        }),
        _ => Err(malformed(line, "no line of a case has this form")),
    }
}

// A line that says more of a run.
fn read_of_run(
    alloc: Global,
    run: &mut Run,
    line: usize,
    mark: &str,
    rest: &str,
) -> Result<(), Failure> {
    match mark {
        "<" => add_input_line(run, line, rest),
        "|" => add_output_line(run, line, rest),
        _ => {
            let words = words_of(alloc, rest)?;
            read_words_of_run(alloc, run, line, mark, &words)
        }
    }
}

// Some more of the input.
fn add_input(run: &mut Run, line: usize, more: &[u8]) -> Result<(), Failure> {
    match &mut run.input {
        Input::Bytes(input) => Ok(input.extend_from_slice(more)?),
        Input::Kept(_) => Err(malformed(line, "the run has its input already")),
    }
}

// A line of the input.
fn add_input_line(run: &mut Run, line: usize, text: &str) -> Result<(), Failure> {
    add_input(run, line, text.as_bytes())?;
    add_input(run, line, b"\n")
}

// Some more of the output.
fn add_output(run: &mut Run, line: usize, more: &[u8]) -> Result<(), Failure> {
    match &mut run.output {
        Output::Bytes(output) => Ok(output.extend_from_slice(more)?),
        Output::Kept { .. } => Err(malformed(line, "the run has its output already")),
    }
}

// A line of the output.
fn add_output_line(run: &mut Run, line: usize, text: &str) -> Result<(), Failure> {
    add_output(run, line, text.as_bytes())?;
    add_output(run, line, b"\n")
}

// A line of words that says more of a run.
fn read_words_of_run(
    alloc: Global,
    run: &mut Run,
    line: usize,
    mark: &str,
    words: &[String],
) -> Result<(), Failure> {
    match (mark, words) {
        ("<+", [count, word]) => {
            let more = bytes_times(alloc, line, count.as_str(), word.as_str())?;
            add_input(run, line, &more)
        }
        ("<<", [name]) => keep_input(run, line, name.clone()?),
        (">>", [name]) => keep_output(run, line, name.clone()?, None),
        (">>", [name, length, hash]) => {
            let sum = sum(line, length.as_str(), hash.as_str())?;
            keep_output(run, line, name.clone()?, Some(sum))
        }
        ("=", [word]) => read_status(run, line, word.as_str()),
        ("*", [word]) => {
            run.calls = Some(number(line, word.as_str())?);
            Ok(())
        }
        ("*", [word, second]) => {
            run.calls = Some(number(line, word.as_str())?);
            run.second_calls = Some(number(line, second.as_str())?);
            Ok(())
        }
        ("!", [of, calls @ ..]) => {
            let calls = numbers(alloc, line, calls)?;
            read_failing(run, line, of.as_str(), calls)
        }
        _ => Err(malformed(line, "no line of a run has this form")),
    }
}

// The input is what is kept under a name.
fn keep_input(run: &mut Run, line: usize, name: String) -> Result<(), Failure> {
    match &run.input {
        Input::Bytes(input) if input.is_empty() => {
            run.input = Input::Kept(name);
            Ok(())
        }
        _ => Err(malformed(line, "the run has its input already")),
    }
}

// The output is kept under a name.
fn keep_output(run: &mut Run, line: usize, name: String, sum: Option<Sum>) -> Result<(), Failure> {
    match &run.output {
        Output::Bytes(output) if output.is_empty() => {
            run.output = Output::Kept { name, sum };
            Ok(())
        }
        _ => Err(malformed(line, "the run has its output already")),
    }
}

// The status that is wanted.
fn read_status(run: &mut Run, line: usize, word: &str) -> Result<(), Failure> {
    let status = number(line, word)?;
    if run.status.is_some() {
        return Err(malformed(line, "the run has its status already"));
    }
    run.status = Some(status);
    Ok(())
}

// The calls that fail, of a disk, the source or the sink.
fn read_failing(run: &mut Run, line: usize, of: &str, calls: Vec<u64>) -> Result<(), Failure> {
    match of {
        "disk" => run.failing.disk = calls,
        "second" => run.failing.second = calls,
        "source" => run.failing.source = calls,
        "sink" => run.failing.sink = calls,
        _ => return Err(malformed(line, "`disk`, `second`, `source` or `sink` is wanted")),
    }
    Ok(())
}
