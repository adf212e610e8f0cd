//! What is true of all items, sections and parts.

ghost use Rattle.std.specs.Prelude.{◌≡◌, ◌≢◌, ◌≤◌, ◌+◌, ◌++◌, ◌∷◌, [], ℕ, Bool, true, false, List};
ghost use Rattle.std.specs.Prelude.{Ok, Option, Some, None, ◌==◌, codes, length, map};
ghost use Rattle.std.specs.List.{list_any};
ghost use Rattle.imap_types.specs.declared.section.Section.{Section};
ghost use Rattle.imap_syntax.specs.declared.fetch.FetchItem.TheVariants.{Body};
ghost use Rattle.imap_syntax.specs.declared.fetch.Partial.{Partial};
ghost use Rattle.imap_answers.specs.AnswerText.{body_text};
ghost use Rattle.imap_answers.specs.Strings.{separated_by};
ghost use Rattle.imap_grammar.specs.Reading.{is_nil};
ghost use Rattle.imap_query.specs.FetchCommand.{section_part};
ghost use Rattle.mail_parts.specs.Entries.{AreEntries};
ghost use Rattle.mail_parts.specs.declared.part.Part.{Part};
ghost use Rattle.body_print.specs.PartNodes.{nodes_of};
ghost use Rattle.body_print.specs.PartNodes.PartNode.{NodeOf};
ghost use Rattle.rev1_fetch.specs.FetchArguments.{AreItemOctets, arguments_of, fetch_arguments};
ghost use Rattle.rev1_fetch.specs.FetchArguments.{follows_item, has_space};
ghost use Rattle.rev1_fetch.specs.ItemPlaces.{AreItems, items_of};
ghost use Rattle.rev1_fetch.specs.NumberedNodes.{node_of, numbered_node};
ghost use Rattle.rev1_fetch.specs.PartNumbers.{ArePartNumbers, BeginsSection};
ghost use Rattle.rev1_fetch.specs.PartPlaces.{IsChild, child_at, children_of, part_at};
ghost use Rattle.rev1_fetch.specs.ReadItems.{IsProfileSection, IsSectionItem};
ghost use Rattle.rev1_fetch.specs.ShownItems.{item_text, joint, part_section, path_text};
ghost use Rattle.rev1_fetch.specs.declared.text_item.TextItem.TheVariants.{Section as SectionItem};

/// The arguments of FETCH are read as they are written: a space, messages, a space, and items
/// between parentheses, or one item.
pub fn arguments_are_read()
    ensures listed { (messages items back : List ℕ)
        → has_space messages ≡ false
        → AreItemOctets true items
        → fetch_arguments
        (codes " " ++ (messages ++ (codes " (" ++ (items ++ (codes ")" ++ back)))))
        ≡ Some (arguments_of messages items false back) }
    ensures single { (messages item back : List ℕ)
        → has_space messages ≡ false
        → AreItemOctets false item
        → item ≢ []
        → follows_item back ≡ true
        → fetch_arguments (codes " " ++ (messages ++ (codes " " ++ (item ++ back))))
        ≡ Some (arguments_of messages item true back) }
{}

/// The items of a text are what spaces outside brackets divide: with spaces between them they are
/// the text, and items that are written so are these items.
pub fn items_are_divided()
    ensures joined { (text : List ℕ) → separated_by 32 (items_of text) ≡ text }
    ensures read { (items : List (List ℕ)) → AreItems items
        → items_of (separated_by 32 items) ≡ items }
{}

/// A section of the profile with the number of a part is the section of that part; with the part's
/// number and MIME it is that part's header (RFC 3501, section 6.4.5). `front` is BODY or
/// BODY.PEEK, `name` is the section's word, `back` a range.
pub fn sections_are_read()
    ensures words { (front path name back : List ℕ) (section : Section) (partial : Option Partial)
        (peek : Bool)
        → list_any (λ octet. octet == 91) front ≡ false
        → ArePartNumbers path
        → BeginsSection name
        → IsProfileSection ((front ++ codes "[") ++ (name ++ (codes "]" ++ back)))
        section partial peek
        → IsSectionItem (front ++ (codes "[" ++ (path_text path
        ++ (joint false (is_nil path) name ++ (name ++ (codes "]" ++ back))))))
        (Ok (part_section path false section partial, peek)) }
    ensures mime { (front path back : List ℕ) (section : Section) (partial : Option Partial)
        (peek : Bool)
        → list_any (λ octet. octet == 91) front ≡ false
        → ArePartNumbers path
        → path ≢ []
        → IsProfileSection ((front ++ codes "[") ++ (codes "]" ++ back)) section partial peek
        → IsSectionItem (front ++ (codes "[" ++ (path_text path
        ++ (codes ".MIME" ++ (codes "]" ++ back)))))
        (Ok (part_section path true section partial, peek)) }
{}

/// A section of the whole message has the text that the profile's answer has for it.
pub fn sections_are_as_inside()
    ensures { (section : Section) (partial : Option Partial) (peek : Bool) (message : List ℕ)
        (parts : List Part)
        → item_text message parts (SectionItem (part_section [] false section partial)) ∷ []
        ≡ map body_text (section_part message (Body peek section partial)) }
{}

/// The part that a number finds below one at some level is the one that it counts among all parts
/// of that one; none is found if there are fewer.
pub fn parts_are_counted()
    ensures counted { (depth n : ℕ) (parts found : List Part)
        → child_at depth (n + 1) parts ≡ Some found
        → IsChild depth n parts found }
    ensures missing { (depth n : ℕ) (parts : List Part)
        → child_at depth (n + 1) parts ≡ None
        → length (children_of depth parts) ≤ n }
{}

/// The part that a part's number finds is the one that the number names in the tree of parts of
/// which BODY and BODYSTRUCTURE are made (`body_of`).
pub fn numbers_are_those_of_bodies()
    ensures { (message path : List ℕ) (part : Part) (parts : List Part)
        → AreEntries message (part ∷ parts)
        → node_of (part_at path (part ∷ parts))
        ≡ numbered_node path (NodeOf part (nodes_of parts)) }
{}
