// The commands of the program and their options, as clap reads them.
ghost use Rattle.std.specs.Prelude.{◌≡◌, IfOk, false, codes, ◌∷◌, [], map};
ghost use Rattle.clap.specs.declared.builder.command.Command.TheViews.{out-Command as fields_of};
ghost use Rattle.clap.specs.Walk.{rule_of};
ghost use Rattle.clap.specs.Simple.{app_of, shape_of};
ghost use Rattle.branch_command.specs.Program.{limit_rule, flag_rule, version_rule, topic_rule, optional_rule, wanted_rule, several_rule, leaf, init_rules, work_names, client_names, send_rules, log_rules, show_rules, bare_program, store_program, program};

use clap::{Arg, ArgAction, Command};
use std::alloc::{AllocError, Global};

// An option with a number.
fn limit<'a>(alloc: Global, name: &'a str, help: &'a str) -> Arg<'a>
    ensures { (rule_of result ≡ limit_rule name.entry.now) × (result.global ≡ false) }
{
    Arg::new(alloc, name).long(name).value_name("N").help(help)
}

// A flag, which is given or not.
fn flag<'a>(alloc: Global, name: &'a str, help: &'a str) -> Arg<'a>
    ensures { (rule_of result ≡ flag_rule name.entry.now) × (result.global ≡ false) }
{
    Arg::new(alloc, name)
        .long(name)
        .action(ArgAction::SetTrue)
        .help(help)
}

// The flag `--version`.
fn version<'a>(alloc: Global) -> Arg<'a>
    ensures { (rule_of result ≡ version_rule) × (result.global ≡ false) }
{
    Arg::new(alloc, "version")
        .long("version")
        .action(ArgAction::Version)
        .help("Print version")
}

// A word that a command takes, which may lack.
fn optional<'a>(alloc: Global, name: &'a str, shown: &'a str, help: &'a str) -> Arg<'a>
    ensures { (rule_of result ≡ optional_rule name.entry.now) × (result.global ≡ false) }
{
    Arg::new(alloc, name).value_name(shown).help(help)
}

// A word that a command wants.
fn wanted<'a>(alloc: Global, name: &'a str, shown: &'a str, help: &'a str) -> Arg<'a>
    ensures { (rule_of result ≡ wanted_rule name.entry.now) × (result.global ≡ false) }
{
    Arg::new(alloc, name)
        .required(true)
        .value_name(shown)
        .help(help)
}

// Words that a command takes, of which there may be none.
fn several<'a>(alloc: Global, name: &'a str, shown: &'a str, help: &'a str) -> Arg<'a>
    ensures { (rule_of result ≡ several_rule name.entry.now) × (result.global ≡ false) }
{
    Arg::new(alloc, name)
        .action(ArgAction::Append)
        .value_name(shown)
        .help(help)
}

// A command without options of its own.
fn plain<'a>(alloc: Global, name: &'a str, about: &'a str) -> Result<Command<'a>, AllocError>
    ensures { IfOk result (λ c. (shape_of c ≡ leaf name.entry.now [])
        × ((fields_of c).has_globals ≡ false)) }
{
    Command::new(alloc, name).about(about).arg(version(alloc))
}

// `help`, and the name of a command.
fn help<'a>(alloc: Global) -> Result<Command<'a>, AllocError>
    ensures { IfOk result (λ c. (shape_of c ≡ leaf (codes "help") (topic_rule ∷ []))
        × ((fields_of c).has_globals ≡ false)) }
{
    let command = optional(alloc, "command", "COMMAND", "The command to tell of");
    Command::new(alloc, "help")
        .about("Print this message or the help of a command")
        .arg(command)?
        .arg(version(alloc))
}

// `init`, and its options.
fn init<'a>(alloc: Global) -> Result<Command<'a>, AllocError>
    ensures { IfOk result (λ c. (shape_of c ≡ leaf (codes "init") init_rules)
        × ((fields_of c).has_globals ≡ false)) }
{
    let clock = limit(
        alloc,
        "max-clock",
        "Greatest clock of a commit, 1 to 18446744073709551615 [default: 18446744073709551615]",
    );
    let commits = limit(
        alloc,
        "max-commits",
        "Most commits, 1 to 4294967295 [default: 16777216]",
    );
    let branches = limit(
        alloc,
        "max-branches",
        "Most branches, 1 to 4294967295 [default: 65536]",
    );
    let value = limit(
        alloc,
        "max-value",
        "Most bytes of a new value, its operation and its reply together, 1 to 1073741824 [default: 16777216]",
    );
    let moves = limit(
        alloc,
        "max-moves",
        "Most head moves, 1 to 281474976710656 [default: 1099511627776]",
    );
    let origin = limit(
        alloc,
        "origin",
        "Origin of the first branch, 0 to 4294967295; the others have the next ones [default: 0]",
    );
    let sequences = flag(
        alloc,
        "sequences",
        "Make a store of documents that have sequences besides the other kinds of values",
    );
    let changes = flag(
        alloc,
        "changes",
        "Store what each commit changes alone, without its value",
    );
    Command::new(alloc, "init")
        .about("Make a store")
        .arg(clock)?
        .arg(commits)?
        .arg(branches)?
        .arg(value)?
        .arg(moves)?
        .arg(origin)?
        .arg(sequences)?
        .arg(changes)?
        .arg(version(alloc))
}

// `generate STEPS NUMBER`.
fn generate<'a>(alloc: Global) -> Result<Command<'a>, AllocError>
    ensures { IfOk result (λ c. (shape_of c ≡ leaf (codes "generate") (map wanted_rule work_names))
        × ((fields_of c).has_globals ≡ false)) }
{
    let steps = wanted(
        alloc,
        "steps",
        "STEPS",
        "How many lines are drawn, 0 to 1000000",
    );
    let number = wanted(
        alloc,
        "number",
        "NUMBER",
        "The number from which they are drawn, 0 to 18446744073709551615",
    );
    Command::new(alloc, "generate")
        .about("Run a script that is drawn from a number, and print what came of it and the report")
        .arg(steps)?
        .arg(number)?
        .arg(version(alloc))
}

// `clients COUNT STEPS NUMBER`.
fn clients<'a>(alloc: Global) -> Result<Command<'a>, AllocError>
    ensures { IfOk result (λ c. (shape_of c ≡ leaf (codes "clients") (map wanted_rule client_names))
        × ((fields_of c).has_globals ≡ false)) }
{
    let count = wanted(
        alloc,
        "count",
        "COUNT",
        "How many clients there are, 1 to 64",
    );
    let steps = wanted(
        alloc,
        "steps",
        "STEPS",
        "How many steps are drawn for each, 0 to 1000000",
    );
    let number = wanted(
        alloc,
        "number",
        "NUMBER",
        "The number from which they are drawn, 0 to 18446744073709551615",
    );
    Command::new(alloc, "clients")
        .about("Run clients side by side, and print what came of each and the report")
        .arg(count)?
        .arg(steps)?
        .arg(number)?
        .arg(version(alloc))
}

// `address BRANCH`.
fn address<'a>(alloc: Global) -> Result<Command<'a>, AllocError>
    ensures { IfOk result (λ c. (shape_of c
        ≡ leaf (codes "address") (wanted_rule (codes "branch") ∷ []))
        × ((fields_of c).has_globals ≡ false)) }
{
    let branch = wanted(alloc, "branch", "BRANCH", "The branch");
    Command::new(alloc, "address")
        .about("Print the address of the head of a branch, in 64 hexadecimal digits")
        .arg(branch)?
        .arg(version(alloc))
}

// `send BRANCH [ADDRESS ..]`.
fn send<'a>(alloc: Global) -> Result<Command<'a>, AllocError>
    ensures { IfOk result (λ c. (shape_of c ≡ leaf (codes "send") send_rules)
        × ((fields_of c).has_globals ≡ false)) }
{
    let branch = wanted(alloc, "branch", "BRANCH", "The branch that is sent");
    let address = several(
        alloc,
        "address",
        "ADDRESS",
        "Addresses of commits that the receiver has, in 64 lower-case hexadecimal digits",
    );
    Command::new(alloc, "send")
        .about(
            "Write to standard output a bundle of the commits of a branch, less those that the receiver has",
        )
        .arg(branch)?
        .arg(address)?
        .arg(version(alloc))
}

// `receive NAME`.
fn receive<'a>(alloc: Global) -> Result<Command<'a>, AllocError>
    ensures { IfOk result (λ c. (shape_of c ≡ leaf (codes "receive")
        (wanted_rule (codes "name") ∷ []))
        × ((fields_of c).has_globals ≡ false)) }
{
    let name = wanted(alloc, "name", "NAME", "The name of the new branch");
    Command::new(alloc, "receive")
        .about(
            "Take the commits of a bundle from standard input, and make a branch at the one that was sent",
        )
        .arg(name)?
        .arg(version(alloc))
}

// The word of `log` and of `show` that says a commit.
fn at<'a>(alloc: Global) -> Arg<'a>
    ensures { (rule_of result ≡ wanted_rule (codes "at")) × (result.global ≡ false) }
{
    wanted(
        alloc,
        "at",
        "AT",
        "A branch, or # and the number of a commit",
    )
}

// `log AT [COUNT]`.
fn log<'a>(alloc: Global) -> Result<Command<'a>, AllocError>
    ensures { IfOk result (λ c. (shape_of c ≡ leaf (codes "log") log_rules)
        × ((fields_of c).has_globals ≡ false)) }
{
    let count = optional(
        alloc,
        "count",
        "COUNT",
        "How many lines are printed at most, 0 to 18446744073709551615 [default: all]",
    );
    Command::new(alloc, "log")
        .about("Print what each commit did that a branch or a commit reaches, the newest first")
        .arg(at(alloc))?
        .arg(count)?
        .arg(version(alloc))
}

// `show AT [--json]`.
fn show<'a>(alloc: Global) -> Result<Command<'a>, AllocError>
    ensures { IfOk result (λ c. (shape_of c ≡ leaf (codes "show") show_rules)
        × ((fields_of c).has_globals ≡ false)) }
{
    let json = flag(alloc, "json", "Print it as one JSON object");
    Command::new(alloc, "show")
        .about("Print the document of a branch or of a commit, a line for each key")
        .arg(at(alloc))?
        .arg(json)?
        .arg(version(alloc))
}

// The statuses that the program ends with, in its help.
const STATUSES: &str =
    "Behind any command the word --verbose, or -v, has standard error told how far the command has come, and why it was
not done.

Statuses:
  0  done
  1  the words say no command
  2  the store, or what was asked, is refused; standard output says why
  3  the disk failed, or another program holds the store
  4  standard input failed
  5  standard output failed
  6  a line of the script is too long
  7  the input is too long
  8  memory is short";

// The program without its commands. Its words have no program's name in front.
fn bare<'a>(alloc: Global) -> Result<Command<'a>, AllocError>
    ensures { IfOk result (λ c. app_of c ≡ bare_program) }
{
    Command::new(alloc, "bucketplum")
        .bin_name("bucketplum PATH")?
        .about("A branch store of mergeable data types, in the files PATH.objects and PATH.heads")
        .after_help(STATUSES)
        .version("0.1.0")
        .propagate_version(true)
        .disable_version_flag(true)
        .disable_help_subcommand(true)
        .no_binary_name(true)
        .subcommand_required(true)
        .arg(version(alloc))
}

// The program with the commands on one store.
fn on_store<'a>(alloc: Global) -> Result<Command<'a>, AllocError>
    ensures { IfOk result (λ c. app_of c ≡ store_program) }
{
    let init = init(alloc)?;
    let script = plain(alloc, "script", "Run the lines of standard input as steps")?;
    let check = plain(alloc, "check", "Open the store and print its report")?;
    let generate = generate(alloc)?;
    let clients = clients(alloc)?;
    let upgrade = plain(
        alloc,
        "upgrade",
        "Make of a store of version 1 one of version 2, in the files PATH.second.objects and PATH.second.heads",
    )?;
    let compact = plain(
        alloc,
        "compact",
        "Leave out the commits that no branch reaches: write the store without them into the other two files, and switch to these",
    )?;
    bare(alloc)?
        .subcommand(init)?
        .subcommand(script)?
        .subcommand(check)?
        .subcommand(generate)?
        .subcommand(clients)?
        .subcommand(upgrade)?
        .subcommand(compact)
}

/// The program.
pub(crate) fn program<'a>(alloc: Global) -> Result<Command<'a>, AllocError>
    ensures { IfOk result (λ c. app_of c ≡ program) }
{
    let address = address(alloc)?;
    let send = send(alloc)?;
    let receive = receive(alloc)?;
    let log = log(alloc)?;
    let show = show(alloc)?;
    let graph = plain(
        alloc,
        "graph",
        "Print the history as a graph in the language DOT",
    )?;
    let help = help(alloc)?;
    on_store(alloc)?
        .subcommand(address)?
        .subcommand(send)?
        .subcommand(receive)?
        .subcommand(log)?
        .subcommand(show)?
        .subcommand(graph)?
        .subcommand(help)
}
