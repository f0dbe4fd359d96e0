/// How a picture is written.
#[derive(Clone, Copy, Debug, PartialEq, Eq)]
pub enum Style {
    /// For a terminal: a line a block, a letter a page.
    Text,
    /// As SVG: a row a block, a rectangle a page, coloured by its file.
    Svg,
}
