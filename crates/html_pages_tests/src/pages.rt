//! Files, and what stands in their pages. A script wrote these pages that shares no code with `check_pages`.

/// Faults of two rules on one line, of one of them two in the file, and a byte above 126.
pub(crate) const FAULTY: &[u8] =
    b"HDRPB000000123PUBLISHER A                                  01.102024050112000020240501\n\
GRHNWR0000102.200000000001\n\
NWR0000000000000000SAY \"<A> & 'B'\"                                                             T0345246802\n\
SWR0000000000000001000000001DOE                                                                         CA                       10000   10000   10000\n\
NWR0000000100000000CAF\xC9                                                          W1            T034524680 \n\
SWR0000000100000001000000001DOE                                                                         CA                       10000   10000   10000\n\
GRT000010000000200000006\n\
TRL000010000000200000008\n";

/// What stands behind the heading of its page.
pub(crate) const FAULTY_PAGE: &[u8] = b"</h1>\n\
<p class=\"outcome\"><span class=\"bad\">Faults</span> in 2 of 2 transactions.</p>\n\
<dl>\n\
<dt>submitter</dt><dd><code>PB 000000123 PUBLISHER A</code></dd>\n\
<dt>created</dt><dd>2024-05-01 12:00:00</dd>\n\
<dt>groups</dt><dd>1</dd>\n\
<dt>transactions</dt><dd>2</dd>\n\
<dt>faults</dt><dd><a href=\"#faults\">3</a></dd>\n\
<dt>remarks</dt><dd><a href=\"#remarks\">1</a></dd>\n\
</dl>\n\
<h2 id=\"rules\">By rule</h2>\n\
<table>\n\
<thead><tr><th scope=\"col\">Rule</th><th scope=\"col\">What is wrong; unfold it for what the rule requires</th><th scope=\"col\" class=\"number\">Faults</th></tr></thead>\n\
<tbody>\n\
<tr><th scope=\"row\">J3</th><td><details><summary>SUBMITTER WORK NUMBER IS BLANK</summary><dl id=\"J3\"><dt>requires</dt><dd>the submitter work number is not blank</dd><dt>broken by</dt><dd>14 blanks at byte 82</dd><dt>fixed by</dt><dd>give it at byte 82: with the submitter it is the key of the work</dd></dl></details></td><td class=\"number\"><a href=\"#J3.1\">1</a></td></tr>\n\
<tr><th scope=\"row\">J4</th><td><details><summary>ISWC IS NOT VALID</summary><dl id=\"J4\"><dt>requires</dt><dd>the ISWC is T, nine digits and their check digit, or blank</dd><dt>broken by</dt><dd>T0345246802, where the check digit is 1</dd><dt>fixed by</dt><dd>T, nine digits, check digit, without dots and dashes; or leave it blank</dd></dl></details></td><td class=\"number\"><a href=\"#J4.1\">2</a></td></tr>\n\
</tbody>\n\
</table>\n\
<h2 id=\"faults\">Faults</h2>\n\
<p class=\"dim\">Each row has 80 bytes of the line. In the ruler above it, the last digit of each number stands over that position. In a marked field <code><mark>\xC2\xB7</mark></code> is a blank. <code>\xC2\xAC</code> is a position behind the end of the line. Two small digits are one byte that is not printable ASCII, in hexadecimal: <code><b>09</b></code> is a TAB, <code><b>C3</b><b>89</b></code> an accented letter in UTF-8.</p>\n\
<section>\n\
<h3>Line 3: NWR 0 of transaction 0 in group 1</h3>\n\
<pre><code>NWR0000000000000000SAY &quot;&lt;A&gt; &amp; &#39;B&#39;&quot;                                               <mark>\xC2\xB7\xC2\xB7\xC2\xB7\xC2\xB7\xC2\xB7\xC2\xB7\xC2\xB7\xC2\xB7\xC2\xB7\xC2\xB7\xC2\xB7\xC2\xB7\xC2\xB7\xC2\xB7</mark><mark>T0345246802</mark>\xC2\xAC</code></pre>\n\
<h4 id=\"J3.1\"><a href=\"#J3\">J3</a> SUBMITTER WORK NUMBER IS BLANK</h4>\n\
<p>submitter work number, start 82, length 14: <code>\xC2\xB7\xC2\xB7\xC2\xB7\xC2\xB7\xC2\xB7\xC2\xB7\xC2\xB7\xC2\xB7\xC2\xB7\xC2\xB7\xC2\xB7\xC2\xB7\xC2\xB7\xC2\xB7</code></p>\n\
<p>expected: a number that is not blank</p>\n\
<h4 id=\"J4.1\"><a href=\"#J4\">J4</a> ISWC IS NOT VALID <small>1 of 2, <a href=\"#J4.2\">next J4</a></small></h4>\n\
<p>ISWC, start 96, length 11: <code>T0345246802</code></p>\n\
<p>expected: T, these nine digits and their check digit 1</p>\n\
</section>\n\
<section>\n\
<h3>Line 5: NWR 0 of transaction 1 in group 1</h3>\n\
<pre><code>NWR0000000100000000CAF<b>C9</b>                                                          W1            <mark>T034524680\xC2\xB7</mark>\xC2\xAC</code></pre>\n\
<h4 id=\"J4.2\"><a href=\"#J4\">J4</a> ISWC IS NOT VALID <small>2 of 2</small></h4>\n\
<p>ISWC, start 96, length 11: <code>T034524680\xC2\xB7</code></p>\n\
<p>expected: T, these nine digits and their check digit 1</p>\n\
</section>\n\
<h2 id=\"remarks\">Remarks: these break no rule</h2>\n\
<section>\n\
<h3>Line 5: NWR</h3>\n\
<pre><code>NWR0000000100000000CAF<mark><b>C9</b></mark>                                                          W1            T034524680 \xC2\xAC</code></pre>\n\
<p><span class=\"dim\">remark:</span> bytes above 126: 1, the first at position 23; an accented letter has two bytes in UTF-8, and shifts the rest of its line by one where its field is filled up in letters</p>\n\
</section>\n\
</main>\n\
</body>\n\
</html>\n";

/// The size of its page.
pub(crate) const FAULTY_SIZE: usize = 11720;

/// A control character.
pub(crate) const REFUSED: &[u8] =
    b"HDRPB000000123PUBLISHER A                                  01.102024050112000020240501\n\
GRHNWR0000102.200000000001\n\
NWR0000000000000000SONG\tONE                                                      W1                       \n\
SWR0000000000000001000000001DOE                                                                         CA                       10000   10000   10000\n\
GRT000010000000100000004\n\
TRL000010000000100000006\n";

/// What stands behind the heading of its page.
pub(crate) const REFUSED_PAGE: &[u8] = b"</h1>\n\
<p class=\"outcome\"><span class=\"bad\">Refused</span> by <a href=\"#F2.1\">F2: a control character in a line</a>, at line 3.</p>\n\
<p class=\"dim\">Nothing of a refused file is registered. Only its first fault is known: mend it, and check again.</p>\n\
<dl>\n\
<dt>submitter</dt><dd><code>PB 000000123 PUBLISHER A</code></dd>\n\
<dt>created</dt><dd>2024-05-01 12:00:00</dd>\n\
<dt>faults</dt><dd><a href=\"#faults\">1</a></dd>\n\
</dl>\n\
<h2 id=\"rules\">By rule</h2>\n\
<table>\n\
<thead><tr><th scope=\"col\">Rule</th><th scope=\"col\">What is wrong; unfold it for what the rule requires</th><th scope=\"col\" class=\"number\">Faults</th></tr></thead>\n\
<tbody>\n\
<tr><th scope=\"row\">F2</th><td><details><summary>a control character in a line</summary><dl id=\"F2\"><dt>requires</dt><dd>no line up to TRL has a byte below 32</dd><dt>broken by</dt><dd>a TAB in a title</dd><dt>fixed by</dt><dd>replace each by one blank; look for line ends inside fields</dd></dl></details></td><td class=\"number\"><a href=\"#F2.1\">1</a></td></tr>\n\
</tbody>\n\
</table>\n\
<h2 id=\"faults\">Faults</h2>\n\
<p class=\"dim\">Each row has 80 bytes of the line. In the ruler above it, the last digit of each number stands over that position. In a marked field <code><mark>\xC2\xB7</mark></code> is a blank. <code>\xC2\xAC</code> is a position behind the end of the line. Two small digits are one byte that is not printable ASCII, in hexadecimal: <code><b>09</b></code> is a TAB, <code><b>C3</b><b>89</b></code> an accented letter in UTF-8.</p>\n\
<section>\n\
<h3>Line 3: NWR 0 of transaction 0 in group 1</h3>\n\
<pre><code>NWR0000000000000000SONG<mark id=\"byte\"><b>09</b></mark>ONE                                                      W1                       \xC2\xAC</code></pre>\n\
<h4 id=\"F2.1\"><a href=\"#F2\">F2</a> a control character in a line</h4>\n\
<p>byte 9, position <a href=\"#byte\">24</a> of the line, 138 of the file</p>\n\
<p>expected: no byte below 32</p>\n\
</section>\n\
</main>\n\
</body>\n\
</html>\n";

/// The size of its page.
pub(crate) const REFUSED_SIZE: usize = 10179;

/// Neither a fault nor a remark.
pub(crate) const CLEAN: &[u8] =
    b"HDRPB000000123PUBLISHER A                                  01.102024050112000020240501\n\
GRHNWR0000102.200000000001\n\
NWR0000000000000000SONG ONE                                                      W1                       \n\
SWR0000000000000001000000001DOE                                                                         CA                       10000   10000   10000\n\
GRT000010000000100000004\n\
TRL000010000000100000006\n";

/// What stands behind the heading of its page.
pub(crate) const CLEAN_PAGE: &[u8] = b"</h1>\n\
<p class=\"outcome\">No faults in 1 transactions.</p>\n\
<dl>\n\
<dt>submitter</dt><dd><code>PB 000000123 PUBLISHER A</code></dd>\n\
<dt>created</dt><dd>2024-05-01 12:00:00</dd>\n\
<dt>groups</dt><dd>1</dd>\n\
<dt>transactions</dt><dd>1</dd>\n\
</dl>\n\
</main>\n\
</body>\n\
</html>\n";

/// The size of its page.
pub(crate) const CLEAN_SIZE: usize = 8547;
