//! The tags of pages.
ghost use Rattle.std.specs.Prelude.{◌≡◌};
ghost use Rattle.pg_page.specs.Html.{lone_name, tag_name};

/// A tag with something in it, which another tag closes.
#[derive(Clone, Copy, Debug, PartialEq, Eq)]
pub enum Tag {
    /// A link.
    A,
    /// What is shown of a page.
    Body,
    /// A button.
    Button,
    /// What is shown at a click on its summary.
    Details,
    /// The foot of a page.
    Footer,
    /// Inputs that a button takes back.
    Form,
    /// HTML in a picture.
    ForeignObject,
    /// Shapes of a picture.
    G,
    /// The heading of a page.
    H1,
    /// The heading of a section.
    H2,
    /// What is said of a page.
    Head,
    /// The head of a page.
    Header,
    /// A page.
    Html,
    /// A member of a list.
    Li,
    /// The main part of a page.
    Main,
    /// A numbered list.
    Ol,
    /// A paragraph.
    P,
    /// A section.
    Section,
    /// Strong words.
    Strong,
    /// The summary of details.
    Summary,
    /// A picture.
    Svg,
    /// A table.
    Table,
    /// A cell of a table.
    Td,
    /// Words in a picture.
    Text,
    /// The heading of a column of a table.
    Th,
    /// The title of a page or of a part of a picture.
    Title,
    /// A row of a table.
    Tr,
    /// A list.
    Ul,
}

impl Tag {
    /// The name of the tag.
    pub fn name(self) -> &'static str
        ensures { result.now ≡ tag_name self }
    {
        match self {
            Tag::A => "a",
            Tag::Body => "body",
            Tag::Button => "button",
            Tag::Details => "details",
            Tag::Footer => "footer",
            Tag::Form => "form",
            Tag::ForeignObject => "foreignObject",
            Tag::G => "g",
            Tag::H1 => "h1",
            Tag::H2 => "h2",
            Tag::Head => "head",
            Tag::Header => "header",
            Tag::Html => "html",
            Tag::Li => "li",
            Tag::Main => "main",
            Tag::Ol => "ol",
            Tag::P => "p",
            Tag::Section => "section",
            Tag::Strong => "strong",
            Tag::Summary => "summary",
            Tag::Svg => "svg",
            Tag::Table => "table",
            Tag::Td => "td",
            Tag::Text => "text",
            Tag::Th => "th",
            Tag::Title => "title",
            Tag::Tr => "tr",
            Tag::Ul => "ul",
        }
    }
}

/// A tag with nothing in it, which is closed at once.
#[derive(Clone, Copy, Debug, PartialEq, Eq)]
pub enum LoneTag {
    /// A circle of a picture.
    Circle,
    /// A button of a group of which one at most is pressed.
    Input,
    /// A line of a picture.
    Line,
    /// Something that is said of a page.
    Meta,
    /// A rectangle of a picture.
    Rect,
}

impl LoneTag {
    /// The name of the tag.
    pub fn name(self) -> &'static str
        ensures { result.now ≡ lone_name self }
    {
        match self {
            LoneTag::Circle => "circle",
            LoneTag::Input => "input",
            LoneTag::Line => "line",
            LoneTag::Meta => "meta",
            LoneTag::Rect => "rect",
        }
    }
}
