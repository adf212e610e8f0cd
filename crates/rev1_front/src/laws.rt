//! What is true of all frames and answers.

ghost use Rattle.std.specs.Prelude.{◌≡◌, ◌⊎◌, ◌++◌, ℕ, Bool, false, List, [], Option, Some};
ghost use Rattle.std.specs.Prelude.{None, codes, flat_map, map};
ghost use Rattle.std.specs.List.{concat};
ghost use Rattle.imap_syntax.specs.Commands.{IsSpelled};
ghost use Rattle.imap_syntax.specs.Faults.{HasTag, IsTagged};
ghost use Rattle.imap_syntax.specs.Keys.{charset, return_options, search_keys};
ghost use Rattle.imap_syntax.specs.Languages.{◌⌢◌, sp};
ghost use Rattle.imap_syntax.specs.declared.arguments.Search.{Search};
ghost use Rattle.imap_syntax.specs.declared.command.Command.TheVariants.{Search as SearchCommand};
ghost use Rattle.imap_syntax.specs.declared.command.Tagged.{Tagged};
ghost use Rattle.imap_syntax.specs.declared.search.SearchOption.{SearchOption};
ghost use Rattle.imap_syntax.specs.declared.search.SearchStep.{SearchStep};
ghost use Rattle.imap_answers.specs.AnswerText.{text_of_answer};
ghost use Rattle.imap_answers.specs.Strings.{crlf};
ghost use Rattle.imap_answers.specs.declared.answer.Answer.{Answer};
ghost use Rattle.imap_answers.specs.declared.answer.Answer.TheVariants.{NoTag, Refused};
ghost use Rattle.imap_answers.specs.declared.fixed_words.Refusal.TheVariants.{NoMemory};
ghost use Rattle.imap_query.specs.Search.{results_of};
ghost use Rattle.imap_query.specs.declared.search_command.Hit.{Hit};
ghost use Rattle.rev1_front.specs.ClientFrames.{IsCommandFrame, IsFetchOfTexts, IsForm};
ghost use Rattle.rev1_front.specs.ClientFrames.{IsSearchForm};
ghost use Rattle.rev1_front.specs.Rev1Keys.{HaveUids, IsSearchFrame, rev1_arguments};
ghost use Rattle.rev1_front.specs.Rev1Keys.{search_command};
ghost use Rattle.rev1_front.specs.SearchReading.{search_read};
ghost use Rattle.rev1_front.specs.Showing.{AreShown, highest_text, hits_line, spaced_number};
ghost use Rattle.rev1_front.specs.Tags.{AreTextsOf, tag_of_taken};
ghost use Rattle.rev1_front.specs.declared.form.Form.{Form};
ghost use Rattle.rev1_front.specs.declared.form.Form.TheVariants.{Plain, Search as SearchForm};
ghost use Rattle.rev1_front.specs.declared.search_days.SentDay.{SentDay};
ghost use Rattle.rev1_front.specs.declared.session.Mode.{Mode};
ghost use Rattle.rev1_front.specs.declared.session.Mode.TheVariants.{Rev2};
ghost use Rattle.rev1_front.specs.declared.taken.Taken.{Taken};
ghost use Rattle.rev1_front.specs.declared.taken.Taken.TheVariants as taken;

use imap_grammar::one_reading;

/// In the mode of IMAP4rev2 a frame that spells a command of the profile is this command, unless
/// memory runs out, and the answers to it are shown as they are.
pub fn profile_is_untouched()
    ensures frames { (frame : List ℕ) (tagged : Tagged) (it : Taken)
        → IsSpelled tagged frame
        → IsCommandFrame Rev2 None frame it
        → (it ≡ taken.Command tagged Plain)
        ⊎ ((tag : List ℕ) × (it ≡ taken.Answer (Refused tag NoMemory))) }
    ensures answers { (answers : List Answer) (text : List ℕ)
        → AreShown Rev2 Plain answers answers text
        → text ≡ flat_map text_of_answer answers }
{
    one_reading();
}

/// The arguments of a search of IMAP4rev1 are replaced by arguments of the profile with the same
/// options and with keys that find the same messages, once the days on which messages were sent are
/// known. Those of the profile stay.
pub fn searches_are_read()
    ensures replaced { (days : List SentDay) (options : List SearchOption) (steps : List SearchStep)
        (text : List ℕ)
        → HaveUids days
        → rev1_arguments days options steps text
        → (inner : List ℕ) × (asks : Bool)
        × (search_read days (text ++ codes "\r\n") ≡ Some (inner ++ codes "\r\n", asks))
        × (sp ⌢ return_options options ⌢ charset ⌢ search_keys steps) inner }
    ensures stay { (days : List SentDay) (options : List SearchOption) (steps : List SearchStep)
        (text : List ℕ)
        → (sp ⌢ return_options options ⌢ charset ⌢ search_keys steps) text
        → search_read days (text ++ codes "\r\n") ≡ Some (text ++ codes "\r\n", false) }
{}

/// A search of IMAP4rev1 that is no command of the profile is taken as that search, unless memory
/// runs out, once the days on which messages were sent are known.
pub fn searches_are_taken()
    ensures { (mode : Mode) (days : List SentDay) (by_uid : Bool) (tag frame : List ℕ)
        (options : List SearchOption) (steps : List SearchStep) (it : Taken)
        → HaveUids days
        → IsSearchFrame days tag by_uid options steps frame
        → ((tagged : Tagged) → IsSpelled tagged frame → ⊥)
        → IsCommandFrame mode (Some days) frame it
        → ((form : Form)
        × IsForm mode frame (search_command tag by_uid options steps).command form
        × (it ≡ taken.Command (search_command tag by_uid options steps) form))
        ⊎ ((other : List ℕ) × (it ≡ taken.Answer (Refused other NoMemory))) }
{}

/// While the days on which messages were sent aren't known, a search of IMAP4rev1 that is no
/// command of the profile is taken as a FETCH that asks for them, or as that search, which is then
/// the same whatever they are; unless memory runs out.
pub fn days_are_asked_for()
    ensures { (mode : Mode) (by_uid : Bool) (tag frame : List ℕ) (options : List SearchOption)
        (steps : List SentDay → List SearchStep) (it : Taken)
        → ((days : List SentDay) → IsSearchFrame days tag by_uid options (steps days) frame)
        → ((tagged : Tagged) → IsSpelled tagged frame → ⊥)
        → IsCommandFrame mode None frame it
        → ((fetch : Tagged) × IsFetchOfTexts tag fetch × (it ≡ taken.AsksDays fetch))
        ⊎ ((((form : Form)
        × IsForm mode frame (search_command tag by_uid options (steps [])).command form
        × (it ≡ taken.Command (search_command tag by_uid options (steps [])) form))
        × ((days : List SentDay) → HaveUids days → steps days ≡ steps []))
        ⊎ ((other : List ℕ) × (it ≡ taken.Answer (Refused other NoMemory)))) }
{}

/// What a frame is to a session has the frame's tag; a frame without one is answered as such.
pub fn tags_are_kept()
    ensures tagged { (mode : Mode) (days : Option (List SentDay)) (frame tag rest : List ℕ)
        (it : Taken)
        → IsTagged frame tag rest
        → IsCommandFrame mode days frame it
        → tag_of_taken it ≡ Some tag }
    ensures untagged { (mode : Mode) (days : Option (List SentDay)) (frame : List ℕ) (it : Taken)
        → (HasTag frame → ⊥)
        → IsCommandFrame mode days frame it
        → it ≡ taken.Answer NoTag }
{}

/// Of each answer a text is shown, in their order: of a tagged line one with its tag, of any other
/// one without a tag, or nothing.
pub fn lines_keep_tags()
    ensures { (mode : Mode) (form : Form) (answers front : List Answer) (text : List ℕ)
        → AreShown mode form answers front text
        → (texts : List (List ℕ)) × AreTextsOf front texts × (text ≡ concat texts) }
{}

/// A search that is shown as numbers has no options of RETURN, so it is shown the number of each of
/// its hits (RFC 3501, section 7.2.5), which ESEARCH would have as ALL (RFC 4731, section 3.1).
pub fn all_hits_are_shown()
    ensures profile { (frame : List ℕ) (tagged : Tagged) (asked : Search)
        → IsSpelled tagged frame
        → tagged.command ≡ SearchCommand asked
        → IsSearchForm frame SearchForm
        → asked.options ≡ [] }
    ensures rev1 { (days : List SentDay) (tag frame : List ℕ) (by_uid : Bool)
        (options : List SearchOption) (steps : List SearchStep)
        → IsSearchFrame days tag by_uid options steps frame
        → IsSearchForm frame SearchForm
        → options ≡ [] }
    ensures hits { (with_modseq : Bool) (hits : List Hit)
        → hits_line (results_of [] with_modseq hits)
        ≡ codes "* SEARCH"
        ++ ((flat_map spaced_number (map (λ hit. hit.number) hits)
        ++ highest_text (results_of [] with_modseq hits).modseq)
        ++ crlf) }
{}
