// The texts of help and of the version.
use branch_command::{Command, read_command};
use std::alloc::{AllocError, Global};

// The words of a text, with a space between two.
fn words_of(alloc: Global, text: &str) -> Result<Vec<String>, AllocError> {
    let mut words = Vec::new(alloc);
    for word in text.split(' ').filter(|word| !word.is_empty()) {
        words.push(String::from_str(alloc, word)?)?;
    }
    Ok(words)
}

#[test]
fn help_tells_of_each_command(rt: HostRuntime) -> Result<(), AllocError> {
    let rows = [
        ("--version", "bucketplum 0.1.0\n"),
        ("help", "Usage: bucketplum PATH <COMMAND>\n"),
        ("--help", "init "),
        ("--help", "script "),
        ("--help", "check "),
        ("--help", "generate "),
        ("--help", "clients "),
        ("--help", "address "),
        ("--help", "send "),
        ("--help", "receive "),
        ("--help", "log "),
        ("--help", "show "),
        ("--help", "graph "),
        ("--help", "Statuses:\n  0  done\n"),
        ("--help", "in the files PATH.objects and PATH.heads"),
        ("help init", "Usage: bucketplum PATH init [OPTIONS]\n"),
        (
            "generate -h",
            "Usage: bucketplum PATH generate <STEPS> <NUMBER>\n",
        ),
        (
            "clients -h",
            "Usage: bucketplum PATH clients <COUNT> <STEPS> <NUMBER>\n",
        ),
        ("init -h", "--max-clock <N>"),
        ("init -h", "--max-commits <N>"),
        ("init -h", "--max-branches <N>"),
        ("init -h", "--max-value <N>"),
        ("init -h", "--max-moves <N>"),
        ("init -h", "--origin <N>"),
        ("address -h", "Usage: bucketplum PATH address <BRANCH>\n"),
        (
            "send -h",
            "Usage: bucketplum PATH send <BRANCH> [ADDRESS]...\n",
        ),
        ("receive -h", "Usage: bucketplum PATH receive <NAME>\n"),
    ];
    for (text, part) in rows {
        let words = words_of(rt.alloc(), text)?;
        let Ok(Command::Tell(told)) = read_command(rt.alloc(), &words) else {
            panic!(rt; "no text");
        };
        assert!(rt; told.contains(part));
    }
    Ok(())
}
