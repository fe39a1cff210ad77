//! What the definition of the words' command says of some words, and of options in general.
ghost use Rattle.std.specs.Prelude.{◌≡◌, ℕ, true, false, List, Some, None, [], ◌∷◌, ◌++◌, codes, length, option_map, replicate};
ghost use Rattle.clap.specs.Walk.{Text};
ghost use Rattle.hex.specs.Hex.{IsBytes, encode_lower};
ghost use Rattle.branch_command.specs.Commands.{Init, Script, Generate, Clients, Upgrade, Compact, Look, Receive, Help, command_of, init_with, options_words};
ghost use Rattle.branch_command.specs.Numbers.{usual, number_of, all_five};
ghost use Rattle.branch_command.specs.Work.{whole_number_of};
ghost use Rattle.branch_command.specs.Terms.{terms_with};
ghost use Rattle.branch_command.specs.Bundles.{name_of, address_of, addresses_of, sending_with};
ghost use Rattle.branch_command.specs.Looks.{address_with};
ghost use Rattle.branch_command.specs.declared.look.At.TheVariants.{Branch, Commit};
ghost use Rattle.branch_command.specs.declared.look.Look.TheVariants.{Report, Address, Bundle, Log, Document, Graph};

/// The commands of some words, and words that say none.
#[tactic(auto, unfolding(crate::specs::Commands::command_of, crate::specs::Program::program, clap::proofs::OnLiterals::clap_on_literals))]
pub fn words()
    ensures script { command_of (codes "script" ∷ []) ≡ Some Script }
    ensures check { command_of (codes "check" ∷ []) ≡ Some (Look Report) }
    ensures init { command_of (codes "init" ∷ [])
        ≡ Some (Init (record { limits = usual; origin = 0; sequences = false; changes = false })) }
    ensures help { command_of (codes "help" ∷ []) ≡ Some Help }
    ensures help_flag { command_of (codes "--help" ∷ []) ≡ Some Help }
    ensures version { command_of (codes "--version" ∷ []) ≡ Some Help }
    ensures help_init { command_of (codes "help" ∷ codes "init" ∷ []) ≡ Some Help }
    ensures init_help { command_of (codes "init" ∷ codes "-h" ∷ []) ≡ Some Help }
    ensures apart { command_of
        (codes "init" ∷ codes "--max-value" ∷ codes "5" ∷ codes "--max-clock" ∷ codes "70" ∷ [])
        ≡ Some (Init (record {
          limits = record usual { clock = 70; value = 5 };
          origin = 0;
          sequences = false;
          changes = false;
        })) }
    ensures sign { command_of (codes "init" ∷ codes "--max-clock" ∷ codes "+5" ∷ []) ≡ None }
    ensures leading_zero { command_of (codes "init" ∷ codes "--max-clock" ∷ codes "05" ∷ [])
        ≡ None }
    ensures zero { command_of (codes "init" ∷ codes "--max-clock" ∷ codes "0" ∷ []) ≡ None }
    ensures too_large { command_of (codes "init" ∷ codes "--max-commits" ∷ codes "4294967296" ∷ [])
        ≡ None }
    ensures no_number { command_of (codes "init" ∷ codes "--max-clock" ∷ []) ≡ None }
    ensures generate { command_of (codes "generate" ∷ codes "1000000" ∷ codes "0" ∷ [])
        ≡ Some (Generate (record { steps = 1000000; number = 0 })) }
    ensures generate_greatest { command_of
        (codes "generate" ∷ codes "0" ∷ codes "18446744073709551615" ∷ [])
        ≡ Some (Generate (record { steps = 0; number = 18446744073709551615 })) }
    ensures generate_help { command_of (codes "generate" ∷ codes "--help" ∷ []) ≡ Some Help }
    ensures many_steps { command_of (codes "generate" ∷ codes "1000001" ∷ codes "0" ∷ []) ≡ None }
    ensures great_number { command_of
        (codes "generate" ∷ codes "0" ∷ codes "18446744073709551616" ∷ []) ≡ None }
    ensures zeros { command_of (codes "generate" ∷ codes "00" ∷ codes "0" ∷ []) ≡ None }
    ensures steps_alone { command_of (codes "generate" ∷ codes "1" ∷ []) ≡ None }
    ensures one_more { command_of (codes "generate" ∷ codes "1" ∷ codes "2" ∷ codes "3" ∷ [])
        ≡ None }
    ensures clients { command_of (codes "clients" ∷ codes "64" ∷ codes "0" ∷ codes "7" ∷ [])
        ≡ Some (Clients (record { count = 64; work = record { steps = 0; number = 7 } })) }
    ensures no_clients { command_of (codes "clients" ∷ codes "0" ∷ codes "1" ∷ codes "7" ∷ [])
        ≡ None }
    ensures many_clients { command_of (codes "clients" ∷ codes "65" ∷ codes "1" ∷ codes "7" ∷ [])
        ≡ None }
    ensures clients_alone { command_of (codes "clients" ∷ codes "1" ∷ []) ≡ None }
    ensures clients_help { command_of (codes "clients" ∷ codes "--help" ∷ []) ≡ Some Help }
    ensures clients_great_number { command_of
        (codes "clients" ∷ codes "1" ∷ codes "1" ∷ codes "18446744073709551616" ∷ []) ≡ None }
    ensures clients_many_steps { command_of
        (codes "clients" ∷ codes "1" ∷ codes "1000001" ∷ codes "0" ∷ []) ≡ None }
    ensures upgrade { command_of (codes "upgrade" ∷ []) ≡ Some Upgrade }
    ensures upgrade_help { command_of (codes "upgrade" ∷ codes "--help" ∷ []) ≡ Some Help }
    ensures upgrade_more { command_of (codes "upgrade" ∷ codes "x" ∷ []) ≡ None }
    ensures compact { command_of (codes "compact" ∷ []) ≡ Some Compact }
    ensures compact_help { command_of (codes "compact" ∷ codes "--help" ∷ []) ≡ Some Help }
    ensures compact_more { command_of (codes "compact" ∷ codes "x" ∷ []) ≡ None }
    ensures origin { command_of
        (codes "init" ∷ codes "--origin" ∷ codes "100" ∷ codes "--max-branches" ∷ codes "100" ∷ [])
        ≡ Some (Init (record {
          limits = record usual { branches = 100 };
          origin = 100;
          sequences = false;
          changes = false;
        })) }
    ensures greatest_origin { command_of
        (codes "init" ∷ codes "--origin" ∷ codes "4294901760" ∷ [])
        ≡ Some (Init (record { limits = usual; origin = 4294901760; sequences = false; changes = false })) }
    ensures high_origin { command_of (codes "init" ∷ codes "--origin" ∷ codes "4294901761" ∷ [])
        ≡ None }
    ensures great_origin { command_of (codes "init" ∷ codes "--origin" ∷ codes "4294967296" ∷ [])
        ≡ None }
    ensures sequences { command_of (codes "init" ∷ codes "--sequences" ∷ [])
        ≡ Some (Init (record { limits = usual; origin = 0; sequences = true; changes = false })) }
    ensures sequences_between { command_of (codes "init" ∷ codes "--max-branches" ∷ codes "100"
        ∷ codes "--sequences" ∷ codes "--origin" ∷ codes "7" ∷ [])
        ≡ Some (Init (record {
          limits = record usual { branches = 100 };
          origin = 7;
          sequences = true;
          changes = false;
        })) }
    ensures sequences_twice { command_of
        (codes "init" ∷ codes "--sequences" ∷ codes "--sequences" ∷ []) ≡ None }
    ensures sequences_word { command_of (codes "init" ∷ codes "--sequences" ∷ codes "true" ∷ [])
        ≡ None }
    ensures sequences_value { command_of (codes "init" ∷ codes "--sequences=true" ∷ []) ≡ None }
    ensures sequences_no_option { command_of (codes "script" ∷ codes "--sequences" ∷ []) ≡ None }
    ensures changes { command_of (codes "init" ∷ codes "--changes" ∷ [])
        ≡ Some (Init (record { limits = usual; origin = 0; sequences = false; changes = true })) }
    ensures changes_between { command_of (codes "init" ∷ codes "--changes" ∷ codes "--max-branches"
        ∷ codes "100" ∷ codes "--sequences" ∷ codes "--origin" ∷ codes "7" ∷ [])
        ≡ Some (Init (record {
          limits = record usual { branches = 100 };
          origin = 7;
          sequences = true;
          changes = true;
        })) }
    ensures changes_twice { command_of
        (codes "init" ∷ codes "--changes" ∷ codes "--changes" ∷ []) ≡ None }
    ensures changes_word { command_of (codes "init" ∷ codes "--changes" ∷ codes "true" ∷ [])
        ≡ None }
    ensures changes_value { command_of (codes "init" ∷ codes "--changes=true" ∷ []) ≡ None }
    ensures changes_no_option { command_of (codes "script" ∷ codes "--changes" ∷ []) ≡ None }
    ensures origin_zeros { command_of (codes "init" ∷ codes "--origin" ∷ codes "00" ∷ []) ≡ None }
    ensures address { command_of (codes "address" ∷ codes "main" ∷ [])
        ≡ Some (Look (Address (record { name = codes "main" }))) }
    ensures address_alone { command_of (codes "address" ∷ []) ≡ None }
    ensures address_name { command_of (codes "address" ∷ codes "Main" ∷ []) ≡ None }
    ensures address_help { command_of (codes "address" ∷ codes "--help" ∷ []) ≡ Some Help }
    ensures send { command_of (codes "send" ∷ codes "main" ∷ [])
        ≡ Some (Look (Bundle (record { branch = codes "main"; here = [] }))) }
    ensures send_here { command_of (codes "send" ∷ codes "main"
        ∷ codes "0000000000000000000000000000000000000000000000000000000000000000" ∷ [])
        ≡ Some (Look (Bundle (record { branch = codes "main"; here = replicate 32 0 ∷ [] }))) }
    ensures send_short { command_of (codes "send" ∷ codes "main"
        ∷ codes "000000000000000000000000000000000000000000000000000000000000000" ∷ []) ≡ None }
    ensures send_long { command_of (codes "send" ∷ codes "main"
        ∷ codes "00000000000000000000000000000000000000000000000000000000000000000" ∷ []) ≡ None }
    ensures send_upper { command_of (codes "send" ∷ codes "main"
        ∷ codes "A000000000000000000000000000000000000000000000000000000000000000" ∷ []) ≡ None }
    ensures send_alone { command_of (codes "send" ∷ []) ≡ None }
    ensures send_help { command_of (codes "send" ∷ codes "--help" ∷ []) ≡ Some Help }
    ensures receive { command_of (codes "receive" ∷ codes "other" ∷ [])
        ≡ Some (Receive (codes "other")) }
    ensures receive_more { command_of (codes "receive" ∷ codes "a" ∷ codes "b" ∷ []) ≡ None }
    ensures receive_alone { command_of (codes "receive" ∷ []) ≡ None }
    ensures receive_help { command_of (codes "receive" ∷ codes "--help" ∷ []) ≡ Some Help }
    ensures log { command_of (codes "log" ∷ codes "main" ∷ [])
        ≡ Some (Look (Log (Branch (codes "main")) None)) }
    ensures log_count { command_of (codes "log" ∷ codes "#3" ∷ codes "2" ∷ [])
        ≡ Some (Look (Log (Commit 3) (Some 2))) }
    ensures log_zeros { command_of (codes "log" ∷ codes "#01" ∷ []) ≡ None }
    ensures log_name { command_of (codes "log" ∷ codes "../x" ∷ []) ≡ None }
    ensures show { command_of (codes "show" ∷ codes "main" ∷ codes "--json" ∷ [])
        ≡ Some (Look (Document (Branch (codes "main")) true)) }
    ensures show_alone { command_of (codes "show" ∷ []) ≡ None }
    ensures graph { command_of (codes "graph" ∷ []) ≡ Some (Look Graph) }
    ensures nothing { command_of [] ≡ None }
    ensures unknown { command_of (codes "client" ∷ []) ≡ None }
    ensures more { command_of (codes "script" ∷ codes "x" ∷ []) ≡ None }
    ensures topic { command_of (codes "help" ∷ codes "x" ∷ []) ≡ None }
{}

/// Each option sets its own number and no other, to what its word says; an option that is given twice says nothing. The
/// flags for sequences and for changes set no number.
pub fn options()
    ensures clock { (word : Text) → command_of (init_with ((codes "max-clock", word) ∷ []))
        ≡ option_map (λ n.
        Init (record { limits = record usual { clock = n }; origin = 0; sequences = false; changes = false }))
        (number_of 18446744073709551615 word) }
    ensures commits { (word : Text) → command_of (init_with ((codes "max-commits", word) ∷ []))
        ≡ option_map (λ n.
        Init (record { limits = record usual { commits = n }; origin = 0; sequences = false; changes = false }))
        (number_of 4294967295 word) }
    ensures branches { (word : Text) → command_of (init_with ((codes "max-branches", word) ∷ []))
        ≡ option_map (λ n. Init (record {
          limits = record usual { branches = n };
          origin = 0;
          sequences = false;
          changes = false;
        }))
        (number_of 4294967295 word) }
    ensures value { (word : Text) → command_of (init_with ((codes "max-value", word) ∷ []))
        ≡ option_map (λ n.
        Init (record { limits = record usual { value = n }; origin = 0; sequences = false; changes = false }))
        (number_of 1073741824 word) }
    ensures moves { (word : Text) → command_of (init_with ((codes "max-moves", word) ∷ []))
        ≡ option_map (λ n.
        Init (record { limits = record usual { moves = n }; origin = 0; sequences = false; changes = false }))
        (number_of 281474976710656 word) }
    ensures twice { (a b : Text)
        → command_of (init_with ((codes "max-clock", a) ∷ (codes "max-clock", b) ∷ [])) ≡ None }
    ensures origin { (word : Text) → command_of (init_with ((codes "origin", word) ∷ []))
        ≡ option_map Init (terms_with (Some usual) (whole_number_of 4294967295 word) false false) }
    ensures all { (a b c d e f : Text) → command_of (init_with
        ((codes "origin", f) ∷ (codes "max-moves", e) ∷ (codes "max-value", d)
        ∷ (codes "max-branches", c) ∷ (codes "max-commits", b) ∷ (codes "max-clock", a) ∷ []))
        ≡ option_map Init (terms_with (all_five (number_of 18446744073709551615 a)
        (number_of 4294967295 b) (number_of 4294967295 c) (number_of 1073741824 d)
        (number_of 281474976710656 e)) (whole_number_of 4294967295 f) false false) }
    ensures sequences { (a b c d e f : Text) → command_of (init_with
        ((codes "origin", f) ∷ (codes "max-moves", e) ∷ (codes "max-value", d) ∷ [])
        ++ codes "--sequences" ∷ options_words
        ((codes "max-branches", c) ∷ (codes "max-commits", b) ∷ (codes "max-clock", a) ∷ []))
        ≡ option_map Init (terms_with (all_five (number_of 18446744073709551615 a)
        (number_of 4294967295 b) (number_of 4294967295 c) (number_of 1073741824 d)
        (number_of 281474976710656 e)) (whole_number_of 4294967295 f) true false) }
    ensures changes { (a b c d e f : Text) → command_of (init_with
        ((codes "origin", f) ∷ (codes "max-moves", e) ∷ (codes "max-value", d) ∷ [])
        ++ codes "--changes" ∷ options_words
        ((codes "max-branches", c) ∷ (codes "max-commits", b) ∷ (codes "max-clock", a) ∷ []))
        ≡ option_map Init (terms_with (all_five (number_of 18446744073709551615 a)
        (number_of 4294967295 b) (number_of 4294967295 c) (number_of 1073741824 d)
        (number_of 281474976710656 e)) (whole_number_of 4294967295 f) false true) }
{}

/// The words behind `--` are a branch and addresses, or a name.
#[tactic(auto, unfolding(crate::specs::Commands::command_of, crate::specs::Program::program, clap::proofs::OnLiterals::clap_on_literals))]
pub fn bundles()
    ensures address { (branch : Text)
        → command_of (codes "address" ∷ codes "--" ∷ branch ∷ [])
        ≡ option_map Look (address_with (name_of (Some branch))) }
    ensures receive { (name : Text) → command_of (codes "receive" ∷ codes "--" ∷ name ∷ [])
        ≡ option_map Receive (name_of (Some name)) }
    ensures send { (branch : Text) → command_of (codes "send" ∷ codes "--" ∷ branch ∷ [])
        ≡ option_map Look (option_map Bundle (sending_with (name_of (Some branch)) (Some []))) }
    ensures send_two { (branch a b : Text)
        → command_of (codes "send" ∷ codes "--" ∷ branch ∷ a ∷ b ∷ [])
        ≡ option_map Look (option_map Bundle
        (sending_with (name_of (Some branch)) (addresses_of (a ∷ b ∷ [])))) }
{}

/// The word of an address is its spelling in 64 lower-case hexadecimal digits, and no other word says it.
pub fn addresses()
    ensures said { (address : List ℕ) → length address ≡ 32 → IsBytes address
        → address_of (encode_lower address) ≡ Some address }
    ensures only { (word : Text) (address : List ℕ) → address_of word ≡ Some address
        → encode_lower address ≡ word }
{}
