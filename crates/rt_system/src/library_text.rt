//! The text of the library.

ghost use Rattle.std.specs.Prelude.{◌≡◌};
ghost use Rattle.rt_system.specs.Library.{library_text};

/// The module LIBRARY: numbers and texts to and from the console. Each line ends by LF, the last too.
pub fn library() -> &'static [u8]
    ensures { result.now ≡ library_text }
{
    b"TITLE LIBRARY;
SVC DATA RRSIO; PROC() BYTE IN; PROC(BYTE) OUT; ENDDATA;
ENT PROC TWRT(REF ARRAY BYTE T);
FOR I := 1 TO LENGTH T DO OUT(T(I)) REP ENDPROC;
ENT PROC NLS(INT N); TO N DO OUT(10) REP ENDPROC;
ENT PROC SPS(INT N); TO N DO OUT(32) REP ENDPROC;
ENT PROC HWRT(INT N); INT D;
FOR I := 1 TO 4 DO D := N SRL (16 - 4 * I) LAND 15;
IF D < 10 THEN OUT(BYTE(D + 48)) ELSE OUT(BYTE(D + 55)) END REP ENDPROC;
PROC DIG(INT D, F) INT;
IF F + D # 0 THEN OUT(BYTE(D + 48)); RETURN 1 END; RETURN 0 ENDPROC;
ENT PROC IWRT(INT N); INT M := N, F;
IF N < 0 THEN OUT('-') ELSE M := -N END;
F := DIG(-(M :/ 10000), 0);
F := DIG(-(M :/ 1000 MOD 10), F);
F := DIG(-(M :/ 100 MOD 10), F);
F := DIG(-(M :/ 10 MOD 10), F);
DIG(-(M MOD 10), 1) ENDPROC;
ENT PROC IREAD() INT; INT N, S; BYTE B; B := IN();
WHILE B = 32 OR B = 10 OR B = 13 DO B := IN() REP;
IF B = '-' THEN S := 1; B := IN() END;
WHILE B >= '0' AND B <= '9' DO N := 10 * N + (B - '0'); B := IN() REP;
IF S = 1 THEN RETURN -N END; RETURN N ENDPROC;
"
}
