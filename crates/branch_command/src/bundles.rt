// The branches and the addresses that the words of the commands on bundles say.
ghost use Rattle.std.specs.Prelude.{◌≡◌, ◌++◌, ◌∷◌, [], Some, None, Err, IfOk, OnOk, map};
ghost use Rattle.std.specs.List.{list_all};
ghost use Rattle.clap.specs.Words.{found_of};
ghost use Rattle.clap.specs.Walk.{first_of, rows_of};
ghost use Rattle.branch_command.specs.Bundles.{name_of, is_lower_digit, is_address_word, address_of, addresses_of, sending_of};
ghost use Rattle.branch_command.specs.declared.command.CommandRefused.TheVariants.{Usage};

use crate::command::CommandRefused;
use branch_names::Name;
use clap::ArgMatches;
use hex::FromHex;
use mrdt_model::Listing;
use std::alloc::{AllocError, Global};

/// The name that a word says; `None` where it is no name.
pub(crate) fn name_in(word: &str) -> Option<Name>
    ensures { result ≡ name_of (Some word.now) }
{
    Name::read(word.as_bytes()).ok()
}

/// The name that was given to a word of a command; `None` where none was given.
pub(crate) fn read_name(given: &ArgMatches<'_>, word: &str) -> Option<Name>
    ensures { result ≡ name_of (first_of word.now (rows_of (found_of given.now))) }
{
    match given.get_str(word) {
        Some(said) => name_in(said),
        None => None,
    }
}

// Whether the byte is one of `0` to `9` and `a` to `f`.
fn is_lower(byte: u8) -> bool
    ensures { result ≡ is_lower_digit byte }
{
    matches!(byte, b'0'..=b'9' | b'a'..=b'f')
}

// Whether all bytes are.
fn are_lower(bytes: &[u8]) -> bool
    ensures { result ≡ list_all is_lower_digit bytes.now }
{
    bytes.iter().all(|byte| is_lower(*byte))
}

// Whether the bytes are 64 of them.
fn is_address(bytes: &[u8]) -> bool
    ensures { result ≡ is_address_word bytes.now }
{
    bytes.len() == 64 && are_lower(bytes)
}

// The address that a word says in 64 lower-case hexadecimal digits.
fn read_address(word: &str) -> Option<[u8; 32]>
    ensures { result ≡ address_of word.now }
{
    if is_address(word.as_bytes()) {
        <[u8; 32] as FromHex>::from_hex(word).ok()
    } else {
        None
    }
}

// Puts an address behind the others of a list.
fn push_address(address: [u8; 32], list: &mut Vec<[u8; 32]>) -> Result<(), AllocError>
    ensures { OnOk result (list.new.items ≡ list.old.items ++ address ∷ []) }
{
    Ok(list.push(address)?)
}

// The addresses that words say.
fn read_addresses(alloc: Global, words: &[&str]) -> Result<Listing<[u8; 32]>, CommandRefused>
    ensures read { IfOk result (λ here. addresses_of (map (λ w. w.now) words.now) ≡ Some here) }
    ensures usage { result ≡ Err Usage → addresses_of (map (λ w. w.now) words.now) ≡ None }
{
    let mut here = Vec::new(alloc);
    for word in words {
        let Some(address) = read_address(word) else {
            return Err(CommandRefused::Usage);
        };
        let Ok(()) = push_address(address, &mut here) else {
            return Err(CommandRefused::Memory);
        };
    }
    Ok(Listing::from_vec(here))
}

/// The branch that is to be sent, and the addresses of commits that the receiver has; `Usage` comes where the branch is
/// no name, or an address is none.
pub(crate) fn read_sending(
    alloc: Global,
    given: &ArgMatches<'_>,
) -> Result<(Name, Listing<[u8; 32]>), CommandRefused>
    ensures read { IfOk result (λ sending. sending_of (rows_of (found_of given.now))
        ≡ Some (record { branch = sending.0; here = sending.1 })) }
    ensures usage { result ≡ Err Usage → sending_of (rows_of (found_of given.now)) ≡ None }
{
    let Some(branch) = read_name(given, "branch") else {
        return Err(CommandRefused::Usage);
    };
    match given.get_strs("address") {
        Some(words) => match read_addresses(alloc, words) {
            Ok(here) => Ok((branch, here)),
            Err(refused) => Err(refused),
        },
        None => Ok((branch, Listing::from_vec(Vec::new(alloc)))),
    }
}
