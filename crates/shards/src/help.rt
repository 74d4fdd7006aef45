//! What `--help` prints.

/// The options in groups. A line has less than 100 columns.
pub(crate) const HELP: &str = "\
Divides a CSV file by the hash of its rows' keys, so that a join can be done part by part

Usage: shards --side <SIDE> --left <FILE> --left-types <TYPES>
              --right <FILE> --right-types <TYPES> --join <CLAUSE>
              --parts <N> (--out <FOLDER> | --cuts <N>) [OPTIONS]

Tables:
  --side <SIDE>             Table to divide: left or right
  --left <FILE>             CSV file of the left table, L in the clause
  --right <FILE>            CSV file of the right table, R in the clause
  --left-types <TYPES>      Left column types: 'int,num(9,2),text', or by name 'id=int,*=text'
  --right-types <TYPES>     Right column types, in the same forms
  -d, --delimiter <CHAR>    Delimiter of both files, or tab [default: a comma]
  --left-delimiter <CHAR>   Delimiter of the left file [default: as --delimiter]
  --right-delimiter <CHAR>  Delimiter of the right file [default: as --delimiter]
  --null <TEXT>             Text for NULL in both files and in the parts [default: an empty field]
  --left-null <TEXT>        NULL in the left file, up to four times; the first is written
  --right-null <TEXT>       NULL in the right file, in the same way
  --strict [<LEVEL>]        Refuse CSV not of RFC 4180 (on), and a last line without end (full)

Join:
  --join <CLAUSE>           As 'LEFT JOIN USING (id)'; it needs a key

Output:
  --parts <N>               Number of parts, 1 to 1024
  --out <FOLDER>            Folder of the parts, which are named 0000.csv, 0001.csv and so on
  --from <BYTE>             First byte to divide [default: 0]
  --to <BYTE>               Byte to divide up to [default: the end of the file]
  --cuts <N>                Divide nothing: print where to cut the file into N ranges, 1 to 100000

Checks:
  --explain                 Say where an error is, and what is there

Help:
  -h, --help                Print this help
  -V, --version             Print the version
";
