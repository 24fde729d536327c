//! The script of a page.

/// What a browser may load for a page: nothing, and no script but this one, by its hash.
pub(crate) const POLICY: &str =
    "default-src 'none'; style-src 'unsafe-inline'; script-src 'sha256-vcKE+ZmyKgZc2kzbaVJL9VHCvuKwK3ift9MPYORj1Y4='";

/// The script: shows what holds for one entry, and hides the rest. It has none of the characters that XML escapes, so a reader
/// of HTML and one of XML read the same.
pub(crate) const SCRIPT: &str = "\
(function(){'use strict';\n\
var d=document,D=d.body.dataset,F=+D.f,N=+D.n,cur=-1,ev={},row={},w,\n\
q=function(s){return d.querySelector(s)},all=function(s){return [].slice.call(d.querySelectorAll(s))},\n\
at=q('input'),no=q('span'),box=q('.left'),pick=q('.pick'),veil=q('.veil'),H=+q('.left svg+svg').getAttribute('height'),\n\
v=all('[data-a]').map(function(e){return [e,+e.dataset.a,+e.dataset.z]});\n\
v.forEach(function(x){[x[1],x[2]].forEach(function(k){(ev[k]=ev[k]||[]).push(x)})});\n\
all('g[data-n]').forEach(function(e,i){var n=e.dataset.n;(row[n]=row[n]||[i,0])[1]++});\n\
function set(x){var s=Math.min(Math.max(cur,x[1]),x[2]-1)===cur?x[1]===cur?cur===F?1:2:1:0,c=x[0].classList;\n\
if(s!==x[3]){x[3]=s;c.toggle('off',!s);c.toggle('new',s===2)}}\n\
function show(n){n=Math.max(F,Math.min(N,Math.round(n)||F));if(n===cur)return;\n\
var o=cur,m=n,k,r,y,h;cur=n;\n\
if(o===-1)v.forEach(set);else for(k=Math.min(o,n);k!==Math.max(o,n)+1;k++)(ev[k]||[]).forEach(set);\n\
while(m!==F){if(row[m])break;m--}\n\
r=row[m]||[0,0];y=34+24*r[0];h=24*r[1];\n\
pick.setAttribute('y',y);pick.setAttribute('height',row[n]?h:0);\n\
veil.setAttribute('y',y+h);veil.setAttribute('height',Math.max(0,H-y-h));\n\
at.value=n;no.textContent=n+' of '+N;\n\
box.scrollTop=Math.min(y-60,Math.max(box.scrollTop,y+h-box.clientHeight+60));\n\
clearTimeout(w);w=setTimeout(function(){try{history.replaceState(null,'','#'+n)}catch(e){}},200)}\n\
at.addEventListener('input',function(){show(at.value)});\n\
q('.bar').addEventListener('click',function(e){var k=e.target.dataset.d;if(k)show(k==='first'?F:k==='last'?N:cur+ +k)});\n\
box.addEventListener('click',function(e){var g=e.target.closest('[data-n]');if(g)if(g!==d.body)show(g.dataset.n)});\n\
d.addEventListener('keydown',function(e){var k={ArrowRight:1,ArrowDown:1,j:1,ArrowLeft:-1,ArrowUp:-1,k:-1,PageDown:10,PageUp:-10}[e.key];\n\
if(e.key==='Home')show(F);else if(e.key==='End')show(N);else if(k)show(cur+k);else return;e.preventDefault()});\n\
addEventListener('hashchange',function(e){show(e.newURL.split('#')[1])});\n\
show(location.hash?location.hash.slice(1):N)})();";
