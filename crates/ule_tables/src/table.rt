use std::io;

/// Prints the head of a table: what its rows and its columns are, each column, and the line that
/// sets them off from the rows.
pub fn print_head(rt: &impl Print, corner: &str, columns: &[i8]) -> io::Result<()> {
    print!(rt; "| {corner} |")?;
    for column in columns {
        print!(rt; " {column} |")?;
    }
    println!(rt; "")?;
    print!(rt; "|---|")?;
    for _ in columns {
        print!(rt; "---|")?;
    }
    println!(rt; "")
}
