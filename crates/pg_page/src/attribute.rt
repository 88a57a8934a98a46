//! The attributes of tags.
ghost use Rattle.std.specs.Prelude.{◌≡◌, ◌++◌, ◌∷◌, [], ℕ, List, IfOk};
ghost use Rattle.pg_page.specs.Html.{attribute_name, lead, numbered, worded};

use pg_base::Memory;
use pg_picture::Text;
use std::alloc::Global;
use std::marker::Model;

/// The name of an attribute.
#[derive(Clone, Copy, Debug, PartialEq, Eq)]
pub enum Name {
    /// What a reader of the screen says of it.
    AriaLabel,
    /// The heading that says what a section is.
    AriaLabelledby,
    /// The code of the page's signs.
    Charset,
    /// By which rules of the style sheet it is shown.
    Class,
    /// What is said of a page.
    Content,
    /// How far a centre is from the left.
    Cx,
    /// How far a centre is from the top.
    Cy,
    /// A height.
    Height,
    /// The part of the page to which a link leads, by its identity. A link never leads out of the
    /// page.
    Href,
    /// The identity of a part of the page.
    Id,
    /// The language of a page.
    Lang,
    /// The group of an input, or the name of what is said of a page.
    Name,
    /// A radius.
    R,
    /// What a reader of the screen takes it for.
    Role,
    /// Whether the tabulator reaches it.
    Tabindex,
    /// What kind of an input or a button it is.
    Type,
    /// The part of the plane that a picture shows.
    ViewBox,
    /// A width.
    Width,
    /// How far it is from the left.
    X,
    /// How far the first end is from the left.
    X1,
    /// How far the second end is from the left.
    X2,
    /// How far it is from the top.
    Y,
    /// How far the first end is from the top.
    Y1,
    /// How far the second end is from the top.
    Y2,
}

impl Name {
    /// The name.
    pub fn word(self) -> &'static str
        ensures { result.now ≡ attribute_name self }
    {
        match self {
            Name::AriaLabel => "aria-label",
            Name::AriaLabelledby => "aria-labelledby",
            Name::Charset => "charset",
            Name::Class => "class",
            Name::Content => "content",
            Name::Cx => "cx",
            Name::Cy => "cy",
            Name::Height => "height",
            Name::Href => "href",
            Name::Id => "id",
            Name::Lang => "lang",
            Name::Name => "name",
            Name::R => "r",
            Name::Role => "role",
            Name::Tabindex => "tabindex",
            Name::Type => "type",
            Name::ViewBox => "viewBox",
            Name::Width => "width",
            Name::X => "x",
            Name::X1 => "x1",
            Name::X2 => "x2",
            Name::Y => "y",
            Name::Y1 => "y1",
            Name::Y2 => "y2",
        }
    }

    /// What is printed before a value: a link leads to a part of the page.
    pub(crate) fn lead(self) -> &'static str
        ensures { result.now ≡ lead self }
    {
        match self {
            Name::Href => "#",
            _ => "",
        }
    }
}

/// An attribute.
#[derive(Debug, Drop)]
pub struct Attribute {
    /// Its name.
    pub name: Name,
    /// Its value; that of `Href` is the identity of a part of the page.
    pub value: Text,
}

/// A list of attributes.
#[derive(Debug, Drop)]
pub struct Attributes {
    members: Vec<Attribute>,
}

/// The attributes in order.
impl Model for Attributes {
    ghost use Rattle.std.specs.Prelude.{List};
    ghost use Rattle.pg_page.specs.declared.attribute.Attribute.{Attribute};

    ghost Value = { List Attribute };

    ghost view = { λ a. a.members.items };
}

impl Attributes {
    /// The list without attributes.
    pub fn none(alloc: Global) -> Attributes
        ensures { result ≡ [] }
    {
        Attributes {
            members: Vec::new(alloc),
        }
    }

    /// The list with an attribute more, whose value are these words. An error is want of memory.
    pub fn words(self, alloc: Global, name: Name, words: &str) -> Result<Attributes, Memory>
        ensures { IfOk result (λ more. more ≡ self ++ worded name words.now ∷ []) }
    {
        let mut members = self.members;
        let mut copied = String::new(alloc);
        copied.push_str(words)?;
        let value = Text::from_string(copied);
        members.push(Attribute { name, value })?;
        Ok(Attributes { members })
    }

    /// The list with an attribute more, whose value is this text. An error is want of memory.
    pub fn text(self, name: Name, value: Text) -> Result<Attributes, Memory>
        ensures { IfOk result (λ more. more ≡ self ++ worded name value ∷ []) }
    {
        let mut members = self.members;
        members.push(Attribute { name, value })?;
        Ok(Attributes { members })
    }

    /// The list with an attribute more, whose value is this number. An error is want of memory.
    pub fn number(self, alloc: Global, name: Name, number: u32) -> Result<Attributes, Memory>
        ensures { IfOk result (λ more. more ≡ self ++ numbered name number ∷ []) }
    {
        let value = Text::from_string(format!(in alloc; "{number}")?);
        self.text(name, value)
    }

    /// The attributes in order.
    pub fn as_slice(&self) -> &[Attribute]
        ensures { result.now ≡ self.now }
    {
        self.members.as_slice()
    }
}
