/// What `--version` prints.
pub const VERSION: &str =
    "spiffs 0.1.0, for volumes of SPIFFS 0.3.7\nlicence: MIT OR Apache-2.0, the Liverymenhir authors\n";

/// What `--help` prints.
pub const HELP: &str = "\
spiffs: a SPIFFS 0.3.7 flash volume in a chip file, or in several end to end

  spiffs run PAGE BLOCK BLOCKS META MAGIC CHIP < SCRIPT
      mounts and checks the volume, then runs each line of the script as a call;
      the check removes damaged files for good: see META
      spiffs run 256 4096 16 0 len chip < script
  spiffs list PAGE BLOCK BLOCKS META MAGIC CHIP
      mounts the volume and tells its files and damaged ids; writes nothing
      spiffs list 256 4096 16 0 len chip
  spiffs check PAGE BLOCK BLOCKS META MAGIC CHIP
      mounts and checks the volume, and tells what the check found and did;
      it removes damaged files for good: see META. Blocks with pages of both
      kinds, as C code makes them, are parted, if enough blocks are free
      spiffs check 256 4096 16 0 len chip
  spiffs extract PAGE BLOCK BLOCKS META MAGIC CHIP FOLDER
      tells what a list tells, and puts each file of the volume into the folder
      spiffs extract 256 4096 16 0 len chip files
  spiffs make PAGE BLOCK BLOCKS META MAGIC CHIP FOLDER
      formats the volume, and writes each file of the folder into it
      spiffs make 256 4096 16 0 len chip files
  spiffs soak PAGE BLOCK BLOCKS META MAGIC CHIP SEED COUNT
      formats the volume, and makes COUNT turns of calls that SEED picks
      spiffs soak 256 4096 16 0 len first,second 0 1000
  spiffs scrub PAGE BLOCK BLOCKS META MAGIC CHIP LIMIT
      mounts and checks the volume, and moves the files of the least worn
      blocks, while those are LIMIT erase counts behind each free block
      spiffs scrub 256 4096 16 0 len chip 100
  spiffs map PAGE BLOCK BLOCKS META MAGIC CHIP ID
      mounts and checks the volume, collects garbage, and tells in which pages
      the data of the file with that id lies
      spiffs map 256 4096 16 0 len chip 1
  spiffs copy PAGE BLOCK BLOCKS META MAGIC CHIP PAGE BLOCK BLOCKS META MAGIC CHIP
      copies the files of the first volume onto the second one, which is
      checked; given again after a power cut it goes on. A chip that is not
      formatted is made an empty volume first:
      mkdir none && spiffs make 128 1024 6 0 plain new none
      spiffs copy 256 4096 16 0 len old 128 1024 6 0 plain new
  spiffs detect CHIP
      tells which volumes a file may hold, the best first, also inside the dump
      of a whole flash; writes nothing
      spiffs detect dump
  spiffs trace PAGE BLOCK BLOCKS META MAGIC CHIP < SCRIPT
      runs the script on a copy of the volume in memory, and has each program,
      erase and reply of that run judged; writes nothing
      spiffs trace 256 4096 16 0 len chip < script
  spiffs rehearse PAGE BLOCK BLOCKS META MAGIC CHIP [tables] < SCRIPT
      tells whether each table of files that a power cut in the script may leave
      keeps the promises of its comments, and with `tables` prints each; writes
      nothing
      spiffs rehearse 256 4096 16 0 len chip < script
  spiffs --force COMMAND ..
      goes on where another META or number of BLOCKS reads more whole files, or
      the file is too short; COMMAND is run, check, scrub, map, copy, trace or
      rehearse
  spiffs ls IMAGE
      tells the files of a volume; writes nothing
      spiffs ls image
  spiffs pack FOLDER IMAGE
      makes an image of the files of a folder and of those below it: each gets
      the name that is `/` and its path
      spiffs pack files image --size 1M
  spiffs gen SIZE FOLDER IMAGE
      does the same, in the words of spiffsgen.py
      spiffs gen 0x10000 files image
  spiffs unpack IMAGE FOLDER
      puts the files of a volume into a folder and folders below it, which are
      made; what is no path is put aside, in a folder of its own
      spiffs unpack image files
  spiffs fsck IMAGE [--repair]
      checks a copy of the volume in memory, or with `--repair` mends the image;
      damaged files are told, and removed with `--force` alone
      spiffs fsck image --repair
  spiffs cat IMAGE NAME
      prints the bytes of a file
      spiffs cat image /index.html
  spiffs put IMAGE FILE [NAME]
      puts a file of the host onto the volume, in the place of one of that name
      spiffs put image index.html /index.html
  spiffs rm IMAGE NAME ..
      removes files
      spiffs rm image /index.html /main.css
  spiffs mv IMAGE OLD NEW
      gives a file another name
      spiffs mv image /index.html /old.html
  spiffs df IMAGE
      tells how full a volume is, and the bytes of the largest new file that it
      still takes; writes nothing
      spiffs df image
  spiffs size FOLDER
      tells how many blocks a volume needs at least for the files of a folder
      and of those below it, and how many bytes these are
      spiffs size files --page 512
  spiffs picture IMAGE [--svg]
      draws a volume, a line a block and a sign a page, or as SVG; writes
      nothing
      spiffs picture image --svg > image.svg
  spiffs --help | --version

From `ls` on, options stand anywhere in the line, each at most once, and what is
left out is found in the image. `pack` and `gen` take those of ESP-IDF.

  -p, --page N      bytes of a page
  -b, --block N     bytes of a block
  -s, --size N      bytes of the volume, else those of the file
  --meta N          meta bytes of each file
  --magic MAGIC     `len` or `plain`
  --at N            the byte of the file at which the volume begins
  --for MAKER       numbers of esp-idf, arduino-esp32 or mkspiffs
  --dry-run         reads alone: changes are tried in memory
  --repair          of `fsck`: mends the image
  --svg             of `picture`: a drawing for a browser
  --force           goes on where other numbers read more whole files, where two
                    volumes may stand end to end, or damaged files are removed
  --raw-names       of `unpack`: takes names with control characters, too

N is a number below 2^32: digits, the same with K or M behind, or `0x` and
hexadecimal digits. Options and -c, -u, -l, -i of mkspiffs and options of
spiffsgen.py are taken, or refused by name. In a NAME `%` and two hexadecimal
digits stand for a byte.

`put`, `rm` and `mv` try all calls on a copy in memory first: nothing is written
if one is refused. A plain file that holds the volume and nothing else is then
replaced by a new file: a cut leaves the old one or the new one. In a dump and
on a device the volume is changed in place. `pack`, `gen`, `make` and `fsck
--repair` do the same.

`put`, `rm`, `mv` and `fsck --repair`, where not all numbers are given, go on if
one volume is meant: no other that is found may be meant as well, at most one of
its blocks lacks its magic, and it cannot be two that stand end to end (there
`--force`, or all numbers of one, go on). Else nothing is written, and standard
error shows each volume by the options that choose it. What only reads takes the
best one, and says so.

  PAGE    bytes of a page, a power of two from 128 to 4096
  BLOCK   bytes of a block, a multiple of PAGE
  BLOCKS  blocks of the volume
  META    meta bytes of each file, 0 to 64. First `list` a chip that you did not
          make. If ids are damaged the META may be wrong; `run`, `check`,
          `scrub`, `map` and `copy`, of the second volume, remove damaged files
          for good
  MAGIC   `len` (the magic tells the volume's length) or `plain`
  CHIP    the chip's file, BLOCK * BLOCKS bytes; or the files of several chips,
          parted by commas, of BLOCK * ceil(BLOCKS / number) bytes each. Bytes
          past a file's end are 0xFF. `make` and `soak` make missing files
  FOLDER  a folder that is there. In the names of its files `%` and two
          hexadecimal digits stand for a byte, as in `%2Findex.html`
  SEED    a number below 2^64
  COUNT   turns, at most 1000000
  LIMIT   erase counts, 1 to 32767
  ID      a file's id, 0 to 65535; `list` tells it

A script is lines of at most 4096 bytes. Each is a call, and is answered by one
line; an empty line, or one that begins with `#`, is no call.

  create NAME   makes an empty file                      ok
  open NAME FLAGS
                opens a file, at offset 0                ok FD
  read FD COUNT reads at most COUNT bytes, 0 to 1024,    ok N TEXT
                from the offset, which moves; or none    ok 0
  write FD TEXT writes the bytes of TEXT                 ok N
  fill FD COUNT HH
                writes COUNT bytes, 0 to 4096, of HH     ok N
  seek FD OFFSET FROM
                moves the offset, from `set`, `cur` or
                `end`                                    ok OFFSET
  tell FD       tells the offset                         ok OFFSET
  truncate FD SIZE
                cuts a file to its first SIZE bytes      ok
  flush FD      puts what was written onto the chip      ok
  close FD      closes a descriptor                      ok
  remove NAME   removes a file, closes its descriptors   ok
  fremove FD    removes that of a descriptor             ok
  rename NAME NAME
                gives a file another name                ok
  meta NAME TEXT
                sets a file's meta bytes                 ok
  fmeta FD TEXT sets those of a descriptor's file        ok
  stat NAME     tells a file's record                    ok ID TYPE SIZE NAME
  fstat FD      tells that of a descriptor's file        ok ID TYPE SIZE NAME
  next ID       tells the file with the least id above   ok ID TYPE SIZE NAME
                ID, if there is one                      ok none
  info          tells how full the volume is             ok files F index I data D usable U
  gc            cleans each block that is worth it       ok

FLAGS is a sum: 1 writes at the file's end, 2 with 16 empties the file, 4 makes
a missing one, 8 reads, 16 writes, 32 puts what is written onto the chip at
once, 64 with 4 refuses a file that is there. In names and texts `%` and two
hexadecimal digits stand for a byte. Small writes wait in memory until another
call.

A call that is refused is answered by a number: -11000 the name is empty or
holds a zero byte, -10036 it is longer than 31 bytes, -11001 bad flags, -10010
no such descriptor, -10007 every descriptor is open, -10002 there is no such
file, -10030 and -10023 the file is there, -10022 the descriptor does not read,
-10021 it does not write, -11002 the place is not in the file, -11003 fewer than
two blocks are free, -10001 the volume is full.

Promises are comments of a script, which `rehearse` judges.

  #! first NAME NAME ..
                up to a line `#! end`, one who reads the first of these that is
                there finds what he finds here, or at that line
  #! some NAME NAME ..
                one of these is there
  #! kept NAME  this one is there with the bytes that it has here

A list is a line `ID TYPE SIZE NAME` for each file, then for each damaged id
`damaged ID span S`, `damaged ID name` or `damaged ID same ID2`.

A check is a line `erased E killed K damaged D free F`: blocks that were erased
for want of their magic, entries that were set to zero, ids that were damaged
and are gone, and free blocks in the end, once blocks were cleaned to have two.

A make is a line `files F index I data D`: files, their index pages and their
data pages. Their ids are 1, 2, 3 and so on, in the order of the names' bytes.

A soak is a line `turns N ok A refused B files F bytes S`: turns in all, those
that did what was asked, those that were refused, files and bytes in the end.

A scrub is a line `moved N free F`: blocks whose files were moved, and that
were erased, and free blocks in the end. If N is 0 a line says why: `level`, no
block is LIMIT erases older than each free one, or `no room`, none of those may
be moved.

A map is a line `SPAN PAGE` for each data page of the file, at most 4096: its
number in the file, from 0, and the page of the volume that holds it.

A copy is a line `copied C kept K`: files that were copied, and those that had
their copy already. Meta bytes go along if both volumes have as many; types and
ids do not. The second volume keeps its other files. While it is copied a file
has the one byte 1 for its name.

A detection is a line `at OFFSET page P block B blocks N meta M magic KIND files
F damaged D` for each volume that the file may hold: OFFSET is its first byte, M
the META that reads most whole files, or `M1-M2` where several read as many. At
its end stands `spoiled N` where two or more blocks lack their magic, and
`doubled N` where two or more ids have two headers, as where two volumes stand
end to end.

A trace is a line `legal E events R replies`: programs, erases and prints, each
of which leaves what a power cut may leave, and whole replies.

A rehearsal is a line `promises P tables T`: promises, and tables that a power
cut may leave, which all keep them; or the files of the first that breaks one,
and a line that tells which. With `tables` a line `line L step S` for each table
stands before that, with its files below it.

Statuses: 0 all was done; 1 usage; 2 numbers or device refused; 3 no volume; 4
blocks hold pages of both kinds, and too few are free to part them: extract the
files and make a new chip; 5 a line outside the grammar, or one with `#!` that
is no promise; 6 no room for the files of the folder, or for the next step of a
copy; 7 a chip or the output failed, 8 the script could not be read, 9 the
folder failed; 10 lent memory too short; 11 the script is too long; 12 an id is
damaged; 13 a name of the folder is no file's, or an earlier one's, or the
source of a copy has the name of a copy; 14 fewer than two free blocks, or, of a
rehearsal, a line that cuts a file where the volume is full; 15 no memory; 17 no
file has that id; 18 a chip of the source failed; 19 what a traced run did is
not legal, or the chip holds no volume; 20 a volume of more than 131072 bytes,
or a script of more than 16384, is not traced; 21 a page does not read as it was
written; 22 the chips make no row, or a copy's volumes share one; 23 `run`,
`check`, `scrub`, `map`, `copy`, `trace` or `rehearse`: ids are damaged on the
volume, of a copy on the target, and another META or number of BLOCKS reads more
whole files, or the file is shorter than the volume; or `put`, `rm`, `mv`, `fsck
--repair`: damaged files would be removed, or several volumes may be meant;
nothing was written; 24 a promise is broken; 25 a call of `cat`, `put`, `rm` or
`mv` is refused; 26 another program has the file. Standard error tells more of
statuses 1, 3, 4, 7, 8, 9, 13, 18, 22, 23, 25 and 26, what a traced run ended
with, what `make` passed over, and how many damaged files were removed.
";
