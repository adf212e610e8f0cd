//! What is true of the parts of all texts.

ghost use Rattle.std.specs.Prelude.{◌≡◌, ℕ, Bool, false, List, [], ◌∷◌, codes, Some};
ghost use Rattle.mail_parts.specs.Compositions.{IsComposition};
ghost use Rattle.mail_parts.specs.Cuttings.{IsCutting, content_at};
ghost use Rattle.mail_fields.specs.Written.{IsToken, written_value};
ghost use Rattle.mail_parts.specs.ContentTypes.{IsBoundary, boundary_parameter};
ghost use Rattle.mail_parts.specs.ContentTypes.{content_of_value, is_same_word};
ghost use Rattle.mail_parts.specs.PartTrees.{PartTree};
ghost use Rattle.mail_parts.specs.PartTrees.BodyTree.{SingleBody};
ghost use Rattle.mail_parts.specs.PartTrees.PartTree.{PartOf};
ghost use Rattle.mail_parts.specs.declared.content.Content.TheVariants.{Multipart, Single};
ghost use Rattle.mail_text.specs.TextLines.{body_lines, header_lines, lines_of};

/// A text is cut in one way.
pub fn one_cutting()
    ensures { (text : List ℕ) (one other : PartTree) → IsCutting text one → IsCutting text other
        → one ≡ other }
{}

/// A text that is composed of parts, with boundaries that occur nowhere in them, is cut into these
/// parts.
pub fn composed_are_cut()
    ensures { (text : List ℕ) (tree : PartTree) → IsComposition text tree → IsCutting text tree }
{}

/// A text without parts is one part: its header and body are those that `mail_text` gives.
pub fn single_is_text()
    ensures { (text : List ℕ) → content_at 0 false (header_lines (lines_of text)) ≡ Single
        → IsCutting text
        (PartOf (header_lines (lines_of text)) (SingleBody (body_lines (lines_of text)))) }
{}

/// A multipart's boundary is read as it was written, in quotes.
pub fn written_boundaries_are_read()
    ensures { (minor boundary : List ℕ) (in_digest : Bool) → IsToken minor → IsBoundary boundary
        → content_of_value in_digest (Some (written_value (codes "multipart") minor
        (boundary_parameter boundary ∷ [])))
        ≡ Multipart boundary (is_same_word (codes "digest") minor) }
{}
